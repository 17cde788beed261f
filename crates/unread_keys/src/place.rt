//! Where a table stands in a session.
ghost use Rattle.std.specs.Prelude.{◌≡◌, ◌++◌, IfOk};
ghost use Rattle.unread_keys.specs.Lines.{entry_text, place_text};

use crate::line::{add_number, add_word};
use std::alloc::AllocError;

/// A table of a session. Entries of arrays of tables are counted from 1; a window is that of a step.
#[derive(Clone, Copy)]
pub(crate) enum Place {
    Top,
    Display,
    ExtraDisplay(usize),
    Device(usize),
    Channel(usize),
    Step(usize),
    Window(usize, usize),
}

/// Entry k of an array of tables.
fn add_entry(text: &mut Vec<u8>, array: &str, k: usize) -> Result<(), AllocError>
    ensures { IfOk result (λ _. text.new.items ≡ text.old.items ++ entry_text array.now k) }
{
    add_word(text, array)?;
    add_word(text, "[")?;
    add_number(text, k)?;
    add_word(text, "].")
}

/// The path of a table, in front of its keys.
pub(crate) fn add_place(text: &mut Vec<u8>, place: Place) -> Result<(), AllocError>
    ensures { IfOk result (λ _. text.new.items ≡ text.old.items ++ place_text place) }
{
    match place {
        Place::Top => Ok(()),
        Place::Display => add_word(text, "display."),
        Place::ExtraDisplay(k) => add_entry(text, "extra_display", k),
        Place::Device(k) => add_entry(text, "device", k),
        Place::Channel(k) => add_entry(text, "channel", k),
        Place::Step(k) => add_entry(text, "step", k),
        Place::Window(k, j) => {
            add_entry(text, "step", k)?;
            add_entry(text, "windows", j)
        }
    }
}
