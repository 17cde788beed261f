//! A pointer that goes down, with the causes.
ghost use Rattle.std.specs.Prelude.{◌≡◌, ◌++◌, IfOk};
ghost use Rattle.window_snapshot.specs.Mask.{mask_has};
ghost use Rattle.why_text.specs.Lines.{blocked_word, blocked_words, choice_words, down_words, sets_words, wall_word};
ghost use Rattle.why_text.specs.Text.{line};
ghost use Rattle.why_text.specs.Words.{row_word, windows_word};
ghost use Rattle.why_lines.specs.Causes.{blocked_by, down_with, walled_by};

use crate::blocking::{Blocked, blockers, is_walled};
use crate::lines::line::{add_clock, add_pointer};
use crate::lines::sets::{add_behind, add_some_window, add_windows};
use input_types::{DeviceId, Moment, Pointer};
use routing_rules::{Choice, Row};
use std::alloc::AllocError;
use text_lines::add_word;
use window_snapshot::{mask_first, mask_without};

/// The causes of a down: the window under the position, which may be a wall, and the choice with its row. The masks
/// have the spies at the position, the candidates that are pilfering the device, the windows that get the pointer, the
/// targets that cannot get it, the windows that are sent a touch outside, and the targets that could get it but are
/// blocked.
#[derive(Clone, Copy)]
pub struct Causes<'a> {
    pub touched: Option<u32>,
    pub choice: Choice,
    pub spies: u64,
    pub pilfering: u64,
    pub given: u64,
    pub mute: u64,
    pub outside: u64,
    pub blocked: Blocked<'a>,
}

/// The word of a row.
fn row_word(row: Row) -> &'static str
    ensures { result.now ≡ row_word row }
{
    match row {
        Row::First => "first",
        Row::Unsplit => "unsplit",
        Row::Nothing => "nothing",
        Row::Whole => "whole",
        Row::Split => "split",
    }
}

/// Adds the window that is chosen, and the row that chose it.
fn add_choice(text: &mut Vec<u8>, causes: &Causes) -> Result<(), AllocError>
    ensures { IfOk result (λ _. text.new.items
        ≡ text.old.items ++ choice_words (down_with causes.now)) }
{
    add_word(text, " touched ")?;
    add_some_window(text, causes.touched)?;
    add_word(text, " row ")?;
    add_word(text, row_word(causes.choice.row))?;
    add_word(text, " chosen ")?;
    add_some_window(text, causes.choice.window)
}

/// Adds a set of windows behind some words.
fn add_named(text: &mut Vec<u8>, words: &str, mask: u64) -> Result<(), AllocError>
    ensures { IfOk result (λ _. text.new.items ≡ text.old.items ++ (words.now ++ windows_word (mask_has mask))) }
{
    add_word(text, words)?;
    add_windows(text, mask)
}

/// Adds the sets of windows.
fn add_sets(text: &mut Vec<u8>, causes: &Causes) -> Result<(), AllocError>
    ensures { IfOk result (λ _. text.new.items
        ≡ text.old.items ++ sets_words (down_with causes.now)) }
{
    add_named(text, " spies ", causes.spies)?;
    add_named(text, " pilfering ", causes.pilfering)?;
    add_named(text, " given ", causes.given)?;
    add_named(text, " mute ", causes.mute)?;
    add_named(text, " outside ", causes.outside)
}

/// The word of a wall, if it is one.
fn wall_word(wall: bool) -> &'static str
    ensures { result.now ≡ wall_word wall }
{
    if wall { " wall" } else { "" }
}

/// Adds a blocked window, with the windows that block it.
fn add_one_blocked(text: &mut Vec<u8>, blocked: &Blocked, channel: u32) -> Result<(), AllocError>
    ensures { IfOk result (λ _. text.new.items
        ≡ text.old.items
        ++ blocked_word (blocked_by blocked.now) (walled_by blocked.now) channel) }
{
    add_behind(text, " blocked ", channel)?;
    add_named(text, " by ", blockers(blocked, channel))?;
    add_word(text, wall_word(is_walled(blocked, channel)))
}

/// Adds each blocked window.
fn add_blocked(text: &mut Vec<u8>, blocked: &Blocked) -> Result<(), AllocError>
    ensures { IfOk result (λ _. text.new.items
        ≡ text.old.items
        ++ blocked_words (mask_has blocked.now.mask) (blocked_by blocked.now) (walled_by blocked.now)) }
{
    let mut rest = blocked.mask;
    while rest != 0 {
        let channel = mask_first(rest);
        add_one_blocked(text, blocked, channel)?;
        rest = mask_without(rest, channel);
    }
    Ok(())
}

/// Adds the line of a pointer of a device that goes down.
pub fn down(
    text: &mut Vec<u8>,
    clock: Moment,
    device: DeviceId,
    pointer: Pointer,
    causes: &Causes,
) -> Result<(), AllocError>
    ensures { IfOk result (λ _. text.new.items
        ≡ text.old.items ++ line clock (down_words device pointer (down_with causes.now))) }
{
    add_clock(text, clock)?;
    add_pointer(text, "down ", device, pointer)?;
    add_choice(text, causes)?;
    add_sets(text, causes)?;
    add_blocked(text, &causes.blocked)?;
    add_word(text, "\n")
}
