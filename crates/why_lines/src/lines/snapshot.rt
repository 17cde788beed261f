//! The windows of a new snapshot.
ghost use Rattle.std.specs.Prelude.{◌≡◌, ◌++◌, codes, flat_map, IfOk};
ghost use Rattle.std.specs.Fmt.{signed_decimal};
ghost use Rattle.why_text.specs.Lines.{snapshot_words, window_words};
ghost use Rattle.why_text.specs.Text.{line};

use crate::lines::line::{add_clock, add_place};
use crate::lines::sets::add_window_word;
use input_types::Moment;
use std::alloc::AllocError;
use text_lines::{add_labeled, add_word};
use touch_region::Rect;
use window_snapshot::Window;

/// Adds the left and the top edge of a frame.
fn add_first_edges(text: &mut Vec<u8>, frame: &Rect) -> Result<(), AllocError>
    ensures { IfOk result (λ _. text.new.items
        ≡ text.old.items ++ (signed_decimal frame.now.left ++ codes "," ++ signed_decimal frame.now.top)) }
{
    add_place(text, frame.left, frame.top)
}

/// Adds its right and its bottom edge.
fn add_last_edges(text: &mut Vec<u8>, frame: &Rect) -> Result<(), AllocError>
    ensures { IfOk result (λ _. text.new.items
        ≡ text.old.items ++ (signed_decimal frame.now.right ++ codes "," ++ signed_decimal frame.now.bottom)) }
{
    add_place(text, frame.right, frame.bottom)
}

/// Adds the edges of a frame.
fn add_frame(text: &mut Vec<u8>, frame: &Rect) -> Result<(), AllocError>
    ensures { IfOk result (λ _. text.new.items
        ≡ text.old.items
        ++ (signed_decimal frame.now.left ++ codes "," ++ signed_decimal frame.now.top ++ codes ","
        ++ signed_decimal frame.now.right ++ codes "," ++ signed_decimal frame.now.bottom)) }
{
    add_first_edges(text, frame)?;
    add_word(text, ",")?;
    add_last_edges(text, frame)
}

/// Adds a window behind a space.
fn add_window(text: &mut Vec<u8>, window: &Window) -> Result<(), AllocError>
    ensures { IfOk result (λ _. text.new.items ≡ text.old.items ++ window_words window.now) }
{
    add_word(text, " ")?;
    add_window_word(text, window.channel)?;
    add_labeled(text, "@", u64::from(window.display.get()))?;
    add_word(text, ":")?;
    add_frame(text, &window.frame)
}

/// Adds windows, each behind a space.
fn add_windows(text: &mut Vec<u8>, windows: &[Window]) -> Result<(), AllocError>
    ensures { IfOk result (λ _. text.new.items ≡ text.old.items ++ flat_map window_words windows.now) }
{
    for window in windows {
        add_window(text, window)?;
    }
    Ok(())
}

/// Adds the line of a new snapshot, with its windows front to back.
pub fn windows(text: &mut Vec<u8>, clock: Moment, windows: &[Window]) -> Result<(), AllocError>
    ensures { IfOk result (λ _. text.new.items ≡ text.old.items ++ line clock (snapshot_words windows.now)) }
{
    add_clock(text, clock)?;
    add_word(text, "windows")?;
    add_windows(text, windows)?;
    add_word(text, "\n")
}
