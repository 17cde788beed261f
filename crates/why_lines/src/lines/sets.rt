//! Sets of windows and of pointer ids as words.
ghost use Rattle.std.specs.Prelude.{◌≡◌, ◌++◌, ◌<◌, ◌&&◌, not, [], codes, decimal, cond, IfOk};
ghost use Rattle.bits32.specs.Set.{is_in};
ghost use Rattle.window_snapshot.specs.Mask.{mask_has};
ghost use Rattle.why_text.specs.Words.{channel_word, channels_that, joined, set_word, some_window_word, window_word, windows_word};
ghost use Rattle.why_lines.specs.Lost.{behind_commas, ids_in};

use bits32::Bits32;
use std::alloc::AllocError;
use text_lines::{add_labeled, add_number, add_word};
use window_snapshot::{is_channel, mask_first, mask_without};

/// Adds a channel, or `-` if there is none.
pub(crate) fn add_channel(text: &mut Vec<u8>, channel: Option<u32>) -> Result<(), AllocError>
    ensures { IfOk result (λ _. text.new.items ≡ text.old.items ++ channel_word channel) }
{
    match channel {
        Some(channel) => add_number(text, u64::from(channel)),
        None => add_word(text, "-"),
    }
}

/// Adds a window by its channel; a wall, which has none, by `wall`.
pub(crate) fn add_window_word(text: &mut Vec<u8>, channel: u32) -> Result<(), AllocError>
    ensures { IfOk result (λ _. text.new.items ≡ text.old.items ++ window_word channel) }
{
    if is_channel(channel) {
        add_number(text, u64::from(channel))
    } else {
        add_word(text, "wall")
    }
}

/// Adds a window, or `-` if there is none.
pub(crate) fn add_some_window(text: &mut Vec<u8>, window: Option<u32>) -> Result<(), AllocError>
    ensures { IfOk result (λ _. text.new.items ≡ text.old.items ++ some_window_word window) }
{
    match window {
        Some(channel) => add_window_word(text, channel),
        None => add_word(text, "-"),
    }
}

/// Adds a channel behind some words.
pub(crate) fn add_behind(text: &mut Vec<u8>, words: &str, channel: u32) -> Result<(), AllocError>
    ensures { IfOk result (λ _. text.new.items ≡ text.old.items ++ (words.now ++ decimal channel)) }
{
    add_labeled(text, words, u64::from(channel))
}

/// Adds the channels of a mask, each behind a comma.
fn add_further(text: &mut Vec<u8>, mask: u64) -> Result<(), AllocError>
    ensures { IfOk result (λ _. text.new.items ≡ text.old.items ++ behind_commas (channels_that (mask_has mask))) }
{
    let mut rest = mask;
    while rest != 0 {
        let channel = mask_first(rest);
        add_behind(text, ",", channel)?;
        rest = mask_without(rest, channel);
    }
    Ok(())
}

/// Adds the set of the windows of a mask.
pub(crate) fn add_windows(text: &mut Vec<u8>, mask: u64) -> Result<(), AllocError>
    ensures { IfOk result (λ _. text.new.items ≡ text.old.items ++ windows_word (mask_has mask)) }
{
    if mask == 0 {
        return add_word(text, "-");
    }
    let first = mask_first(mask);
    add_channel(text, Some(first))?;
    add_further(text, mask_without(mask, first))
}

/// Adds a number if it is in the set, behind a comma unless it is the first. Returns whether none was added yet.
fn add_if_in(text: &mut Vec<u8>, ids: Bits32, id: u8, is_first: bool) -> Result<bool, AllocError>
    requires { id < 32 }
    ensures text { IfOk result (λ _. text.new.items
        ≡ text.old.items ++ cond (is_in id ids) (cond is_first (decimal id) (codes "," ++ decimal id)) []) }
    ensures first { IfOk result (λ b. b ≡ (is_first && not (is_in id ids))) }
{
    if !ids.has(id) {
        return Ok(is_first);
    }
    if !is_first {
        add_word(text, ",")?;
    }
    add_number(text, u64::from(id))?;
    Ok(false)
}

/// Adds the ids of a set, joined by commas.
pub(crate) fn add_ids(text: &mut Vec<u8>, ids: Bits32) -> Result<(), AllocError>
    ensures { IfOk result (λ _. text.new.items ≡ text.old.items ++ joined (ids_in ids)) }
{
    let mut is_first = true;
    for id in 0..32 {
        is_first = add_if_in(text, ids, id, is_first)?;
    }
    Ok(())
}

/// Adds the ids of a set, or `-` if there are none.
pub(crate) fn add_id_set(text: &mut Vec<u8>, ids: Bits32) -> Result<(), AllocError>
    ensures { IfOk result (λ _. text.new.items ≡ text.old.items ++ set_word (ids_in ids)) }
{
    if ids.count() == 0 {
        add_word(text, "-")
    } else {
        add_ids(text, ids)
    }
}
