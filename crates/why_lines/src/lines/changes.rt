//! Changes of the focus.
ghost use Rattle.std.specs.Prelude.{◌≡◌, ◌++◌, codes, decimal, flat_map, IfOk};
ghost use Rattle.why_text.specs.Text.{change_words, line, same_channel};
ghost use Rattle.why_text.specs.Words.{channel_word};

use crate::lines::line::add_clock;
use crate::lines::sets::add_channel;
use input_types::{DisplayId, Moment};
use std::alloc::AllocError;
use text_lines::{add_labeled, add_word};

/// Whether two channels, or none, are the same.
fn same_channel(before: Option<u32>, after: Option<u32>) -> bool
    ensures { result ≡ same_channel before after }
{
    match (before, after) {
        (None, None) => true,
        (Some(before), Some(after)) => before == after,
        _ => false,
    }
}

/// Adds the channels before and after, and ends the line.
fn add_change(text: &mut Vec<u8>, before: Option<u32>, after: Option<u32>) -> Result<(), AllocError>
    ensures { IfOk result (λ _. text.new.items
        ≡ text.old.items ++ (channel_word before ++ codes " " ++ channel_word after ++ codes "\n")) }
{
    add_channel(text, before)?;
    add_word(text, " ")?;
    add_channel(text, after)?;
    add_word(text, "\n")
}

/// Adds the line of a change of the focus of a display, if it changes.
pub fn focus(
    text: &mut Vec<u8>,
    clock: Moment,
    display: DisplayId,
    before: Option<u32>,
    after: Option<u32>,
) -> Result<(), AllocError>
    ensures { IfOk result (λ _. text.new.items
        ≡ text.old.items
        ++ flat_map (line clock) (change_words (codes "focus " ++ decimal display ++ codes " ") before after)) }
{
    if same_channel(before, after) {
        return Ok(());
    }
    add_clock(text, clock)?;
    add_labeled(text, "focus ", u64::from(display.get()))?;
    add_word(text, " ")?;
    add_change(text, before, after)
}

/// Adds the line of a change of the window that keys go to, if it changes.
pub fn target(
    text: &mut Vec<u8>,
    clock: Moment,
    before: Option<u32>,
    after: Option<u32>,
) -> Result<(), AllocError>
    ensures { IfOk result (λ _. text.new.items
        ≡ text.old.items ++ flat_map (line clock) (change_words (codes "target ") before after)) }
{
    if same_channel(before, after) {
        return Ok(());
    }
    add_clock(text, clock)?;
    add_word(text, "target ")?;
    add_change(text, before, after)
}
