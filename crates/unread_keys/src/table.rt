//! The keys of the tables of a session.
ghost use Rattle.std.specs.Prelude.{◌≡◌, ◌++◌, codes, map, IfOk};
ghost use Rattle.toml.specs.Data.{get};
ghost use Rattle.toml.specs.View.{table_view, view};
ghost use Rattle.unread_keys.specs.Lines.{unread_lines};
ghost use Rattle.unread_keys.specs.Session.{array_lines, display_lines, elements_of, entries_from, entry_lines, list_or_none};
ghost use Rattle.unread_keys.specs.Session.{table_lines, windows_from};
ghost use Rattle.unread_keys.specs.declared.table.Array.TheVariants.{Steps};
ghost use Rattle.session_plan.specs.Reading.{as_list};

use crate::line::add_line;
use crate::names::{Kind, device_kind, is_read, is_word, step_kind};
use crate::place::Place;
use std::alloc::AllocError;
use toml::{Table, Value};

/// The arrays of tables of a session.
#[derive(Clone, Copy)]
pub(crate) enum Array {
    ExtraDisplays,
    Devices,
    Channels,
    Steps,
}

/// The keys of a table of this kind that nothing reads.
fn add_keys(text: &mut Vec<u8>, place: Place, kind: Kind, table: &Table) -> Result<(), AllocError>
    ensures { IfOk result (λ _. text.new.items ≡ text.old.items ++ unread_lines place kind (table_view table.now)) }
{
    for (key, _value) in table.iter() {
        if !is_read(kind, key.as_str()) {
            add_line(text, place, key.as_str())?;
        }
    }
    Ok(())
}

/// The keys of a value that is a table.
pub(crate) fn add_table(
    text: &mut Vec<u8>,
    place: Place,
    kind: Kind,
    value: &Value,
) -> Result<(), AllocError>
    ensures { IfOk result (λ _. text.new.items ≡ text.old.items ++ table_lines place kind (view value.now)) }
{
    match value.as_table() {
        Some(table) => add_keys(text, place, kind, table),
        None => Ok(()),
    }
}

/// The elements of a value that is an array.
#[tactic(auto, using(crate::proofs::Elements::list_of_items))]
fn items(value: &Value) -> &[Value]
    ensures { map view result.now ≡ list_or_none (as_list (view value.now)) }
{
    match value.as_array() {
        Some(array) => array.as_slice(),
        None => &[],
    }
}

/// The elements of the array at a key.
fn elements<'a>(table: &'a Value, key: &str) -> &'a [Value]
    ensures { map view result.now ≡ elements_of (get key.now (view table.now)) }
{
    match table.get(key) {
        Some(value) => items(value),
        None => &[],
    }
}

/// The windows of step k.
fn add_windows(text: &mut Vec<u8>, k: usize, windows: &[Value]) -> Result<(), AllocError>
    ensures { IfOk result (λ _. text.new.items ≡ text.old.items ++ windows_from k 1 (map view windows.now)) }
{
    for (j, window) in windows.iter().enumerate() {
        add_table(text, Place::Window(k, j + 1), Kind::Window, window)?;
    }
    Ok(())
}

/// Step k, and its windows behind it.
fn add_step(text: &mut Vec<u8>, k: usize, step: &Value) -> Result<(), AllocError>
    ensures { IfOk result (λ _. text.new.items ≡ text.old.items ++ entry_lines Steps k (view step.now)) }
{
    add_table(text, Place::Step(k), step_kind(step), step)?;
    if is_word(step, "do", "windows") {
        add_windows(text, k, elements(step, "windows"))
    } else {
        Ok(())
    }
}

/// Entry k of an array of tables.
fn add_entry(text: &mut Vec<u8>, array: Array, k: usize, entry: &Value) -> Result<(), AllocError>
    ensures { IfOk result (λ _. text.new.items ≡ text.old.items ++ entry_lines array k (view entry.now)) }
{
    match array {
        Array::ExtraDisplays => add_table(text, Place::ExtraDisplay(k), Kind::Display, entry),
        Array::Devices => add_table(text, Place::Device(k), device_kind(entry), entry),
        Array::Channels => add_table(text, Place::Channel(k), Kind::Channel, entry),
        Array::Steps => add_step(text, k, entry),
    }
}

/// The entries of an array of tables.
fn add_entries(text: &mut Vec<u8>, array: Array, entries: &[Value]) -> Result<(), AllocError>
    ensures { IfOk result (λ _. text.new.items ≡ text.old.items ++ entries_from array 1 (map view entries.now)) }
{
    for (i, entry) in entries.iter().enumerate() {
        add_entry(text, array, i + 1, entry)?;
    }
    Ok(())
}

/// The array of tables at a key of a document.
pub(crate) fn add_array(
    text: &mut Vec<u8>,
    array: Array,
    document: &Value,
    key: &str,
) -> Result<(), AllocError>
    ensures { IfOk result (λ _. text.new.items
        ≡ text.old.items ++ array_lines array (get key.now (view document.now))) }
{
    add_entries(text, array, elements(document, key))
}

/// The display of a document.
pub(crate) fn add_display(text: &mut Vec<u8>, document: &Value) -> Result<(), AllocError>
    ensures { IfOk result (λ _. text.new.items
        ≡ text.old.items ++ display_lines (get (codes "display") (view document.now))) }
{
    match document.get("display") {
        Some(display) => add_table(text, Place::Display, Kind::Display, display),
        None => Ok(()),
    }
}
