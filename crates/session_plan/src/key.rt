//! The paths of keys.
ghost use Rattle.std.specs.Prelude.{◌≡◌, IfOk, string_bytes};
ghost use Rattle.session_plan.specs.Keys.{entry_key, key_of, window_key};

use std::alloc::{AllocError, Global};

/// A table of a session file. Entries of arrays of tables are counted from 1; a window is that of a step.
#[derive(Clone, Copy)]
pub enum Place {
    Document,
    Display,
    ExtraDisplay(usize),
    Device(usize),
    Channel(usize),
    Step(usize),
    Window(usize, usize),
}

/// A key of entry k of an array of tables.
fn entry_key(alloc: Global, array: &str, k: usize, key: &str) -> Result<String, AllocError>
    ensures { IfOk result (λ text. string_bytes text ≡ entry_key array.now k key.now) }
{
    format!(in alloc; "{array}[{k}].{key}")
}

/// A key of window j of step k.
fn window_key(alloc: Global, k: usize, j: usize, key: &str) -> Result<String, AllocError>
    ensures { IfOk result (λ text. string_bytes text ≡ window_key k j key.now) }
{
    format!(in alloc; "step[{k}].windows[{j}].{key}")
}

/// A key of a table by its path.
#[tactic(auto, unfolding(crate::specs::Keys::key_of))]
pub(crate) fn key_text(alloc: Global, place: Place, key: &str) -> Result<String, AllocError>
    ensures { IfOk result (λ text. string_bytes text ≡ key_of place key.now) }
{
    match place {
        Place::Document => String::from_str(alloc, key),
        Place::Display => format!(in alloc; "display.{key}"),
        Place::ExtraDisplay(k) => entry_key(alloc, "extra_display", k, key),
        Place::Device(k) => entry_key(alloc, "device", k, key),
        Place::Channel(k) => entry_key(alloc, "channel", k, key),
        Place::Step(k) => entry_key(alloc, "step", k, key),
        Place::Window(k, j) => window_key(alloc, k, j, key),
    }
}
