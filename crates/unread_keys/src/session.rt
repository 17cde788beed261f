//! The keys of a session file.
ghost use Rattle.std.specs.Prelude.{◌≡◌, ◌++◌, option_map, IfOk};
ghost use Rattle.toml.specs.View.{view};
ghost use Rattle.session_plan.specs.Reading.{parsed};
ghost use Rattle.unread_keys.specs.Session.{document_lines, unread_text};

use crate::names::Kind;
use crate::place::Place;
use crate::table::{Array, add_array, add_display, add_table};
use std::alloc::{AllocError, Global};
use std::str;
use toml::Value;

/// The table that the bytes are.
#[tactic(auto, using(session_plan::proofs::Text::parsed_text, session_plan::proofs::Text::parsed_no_text))]
fn document(alloc: Global, bytes: &[u8]) -> Result<Option<Value>, AllocError>
    ensures { IfOk result (λ d. option_map view d ≡ parsed bytes.now) }
{
    let Ok(text) = str::from_utf8(bytes) else {
        return Ok(None);
    };
    match toml::table_from_str(alloc, text) {
        Ok(table) => Ok(Some(Value::Table(table))),
        Err(error) => {
            if error.is_memory() {
                Err(AllocError)
            } else {
                Ok(None)
            }
        }
    }
}

/// The keys of a document that nothing reads.
#[tactic(auto, unfolding(crate::specs::Session::document_lines))]
fn add_document(text: &mut Vec<u8>, document: &Value) -> Result<(), AllocError>
    ensures { IfOk result (λ _. text.new.items ≡ text.old.items ++ document_lines (view document.now)) }
{
    add_table(text, Place::Top, Kind::Top, document)?;
    add_display(text, document)?;
    add_array(text, Array::ExtraDisplays, document, "extra_display")?;
    add_array(text, Array::Devices, document, "device")?;
    add_array(text, Array::Channels, document, "channel")?;
    add_array(text, Array::Steps, document, "step")
}

/// Adds a line for each key of a session file that nothing reads: `key` and its path, as `key device[1].slots`.
///
/// A key is read if docs/SESSION.md names it at its place, for the kind of device or of step that has it. Bytes that
/// are no TOML add nothing. If memory runs out, some lines may have been added.
pub fn add_unread_keys(alloc: Global, bytes: &[u8], text: &mut Vec<u8>) -> Result<(), AllocError>
    ensures { IfOk result (λ _. text.new.items ≡ text.old.items ++ unread_text bytes.now) }
{
    match document(alloc, bytes)? {
        Some(document) => add_document(text, &document),
        None => Ok(()),
    }
}
