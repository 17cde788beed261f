//! Hints at numbers that should be 0, and at a byte order mark.
ghost use Rattle.std.specs.Prelude.{◌≡◌, ◌++◌, ℕ, List, IfOk};
ghost use Rattle.raw_events.specs.declared.event.RawEvent.{RawEvent as Event};
ghost use Rattle.device_reader.specs.Cooked.{DevicePlan, TouchPlan, Touches};
ghost use Rattle.recording_counts.specs.Devices.{AllCounted, DeviceCounted};
ghost use Rattle.recording_counts.specs.Touch.{TouchTallyStandsFor};
ghost use Rattle.inspect_text.specs.CountedHints.{clamped_line, clock_line, counts_hint, drops_line, mark_line, number_line};
ghost use Rattle.inspect_text.specs.Inspected.{each_device};

use recording_counts::{DeviceTally, TallyKind, TouchTally};
use std::alloc::AllocError;
use text_lines::{add_labeled, add_word};

/// Adds the line of a number of a device.
fn add_number_line(
    text: &mut Vec<u8>,
    device: u64,
    words: &str,
    number: u64,
) -> Result<(), AllocError>
    ensures { IfOk result (λ _. text.new.items ≡ text.old.items ++ number_line device words.now number) }
{
    add_labeled(text, "hint device ", device)?;
    add_labeled(text, words, number)?;
    add_word(text, "\n")
}

/// Adds the hint at positions outside their axis, if there are some.
fn add_clamped(text: &mut Vec<u8>, device: u64, clamped: u64) -> Result<(), AllocError>
    ensures { IfOk result (λ _. text.new.items ≡ text.old.items ++ clamped_line device clamped) }
{
    if clamped == 0 {
        Ok(())
    } else {
        add_number_line(text, device, " clamped ", clamped)
    }
}

/// Adds the hint at drops, if there are some.
fn add_drops(text: &mut Vec<u8>, device: u64, drops: u64) -> Result<(), AllocError>
    ensures { IfOk result (λ _. text.new.items ≡ text.old.items ++ drops_line device drops) }
{
    if drops == 0 {
        Ok(())
    } else {
        add_number_line(text, device, " drops ", drops)
    }
}

/// Adds the hints at the numbers of a touch device.
fn add_touch_counts(text: &mut Vec<u8>, device: u64, touch: &TouchTally) -> Result<(), AllocError>
    ensures { (plan : TouchPlan) (past : List Event) → TouchTallyStandsFor plan past touch.now
        → IfOk result (λ _. text.new.items ≡ text.old.items ++ counts_hint device (Touches plan) past) }
{
    add_clamped(text, device, touch.counts().clamped)?;
    add_drops(text, device, touch.events().drops)
}

/// Adds the hints at the numbers of a device.
fn add_counts(text: &mut Vec<u8>, device: u64, tally: &DeviceTally) -> Result<(), AllocError>
    ensures { (plan : DevicePlan) (past : List Event) → DeviceCounted plan past tally.now
        → IfOk result (λ _. text.new.items ≡ text.old.items ++ counts_hint device plan past) }
{
    match &tally.kind {
        TallyKind::Touch(touch) => add_touch_counts(text, device, touch),
        TallyKind::Keys(keys) => add_drops(text, device, keys.events().drops),
    }
}

/// Adds the hints at the numbers of all devices, in the order of the devices.
pub(crate) fn add_all_counts(text: &mut Vec<u8>, devices: &[DeviceTally]) -> Result<(), AllocError>
    ensures { (plans : List DevicePlan) (past : List Event) → AllCounted plans past devices.now
        → IfOk result (λ _. text.new.items ≡ text.old.items ++ each_device counts_hint 1 plans past) }
{
    for (place, tally) in devices.iter().enumerate() {
        add_counts(text, place as u64 + 1, tally)?;
    }
    Ok(())
}

/// Adds the hint at events at which the clock went back, if there are some.
pub(crate) fn add_clock_back(text: &mut Vec<u8>, events: u64) -> Result<(), AllocError>
    ensures { IfOk result (λ _. text.new.items ≡ text.old.items ++ clock_line events) }
{
    if events == 0 {
        return Ok(());
    }
    add_labeled(text, "hint clock back ", events)?;
    add_word(text, "\n")
}

/// Adds the hint at a byte order mark, if the recording begins with one.
pub(crate) fn add_mark(text: &mut Vec<u8>, marked: bool) -> Result<(), AllocError>
    ensures { IfOk result (λ _. text.new.items ≡ text.old.items ++ mark_line marked) }
{
    if marked {
        add_word(text, "hint byte order mark\n")
    } else {
        Ok(())
    }
}
