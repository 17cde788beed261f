//! Hints at what looks as if it was not meant so.
ghost use Rattle.std.specs.Prelude.{◌≡◌, ◌++◌, List, map, option_map, Some, IfOk};
ghost use Rattle.raw_events.specs.declared.event.RawEvent.{RawEvent as Event};
ghost use Rattle.device_reader.specs.Cooked.{DevicePlan, Keys, KeysPlan, TouchPlan, Touches};
ghost use Rattle.recording_counts.specs.Devices.{AllCounted, DeviceCounted};
ghost use Rattle.recording_counts.specs.KeyTally.{KeysTallyStandsFor};
ghost use Rattle.recording_counts.specs.Touch.{TouchTallyStandsFor};
ghost use Rattle.inspect_text.specs.Hints.{GoesOn, behind_commas, hint_at, hint_front, hint_line, keys_word, scan_words, scans_down, still_down, touch_word};
ghost use Rattle.inspect_text.specs.Inspected.{each_device, hint_text};

use device_reader::pointer_ids::Held;
use recording_counts::{
    DeviceTally, EventCounts, KeyCounts, KeysTally, TallyKind, TouchCounts, TouchTally,
};
use std::alloc::AllocError;
use text_lines::{add_labeled, add_word};

/// What is hinted of the events of a touch device.
fn touch_word(events: &EventCounts, touches: &TouchCounts) -> Option<&'static str>
    ensures { option_map (λ w. w.now) result ≡ touch_word events.now touches.now }
{
    if events.events == 0 {
        Some("silent")
    } else if touches.single && !touches.placed {
        Some("single touch")
    } else if touches.protocol_a {
        Some("protocol A")
    } else if touches.fingers == 0 {
        Some("no fingers")
    } else {
        None
    }
}

/// What is hinted of those of a device with keys.
fn keys_word(events: &EventCounts, keys: &KeyCounts) -> Option<&'static str>
    ensures { option_map (λ w. w.now) result ≡ keys_word events.now keys.now }
{
    if events.events == 0 {
        Some("silent")
    } else if keys.downs == 0 {
        Some("no keys")
    } else {
        None
    }
}

/// Adds the front of the line of a hint.
fn add_front(text: &mut Vec<u8>, device: u64) -> Result<(), AllocError>
    ensures { IfOk result (λ _. text.new.items ≡ text.old.items ++ hint_front device) }
{
    add_labeled(text, "hint device ", device)?;
    add_word(text, " ")
}

/// Adds the line of a hint with these words.
fn add_words(text: &mut Vec<u8>, device: u64, words: &str) -> Result<(), AllocError>
    ensures { IfOk result (λ _. text.new.items ≡ text.old.items ++ hint_line device (Some words.now)) }
{
    add_front(text, device)?;
    add_word(text, words)?;
    add_word(text, "\n")
}

/// Adds ids, each after a comma.
fn add_further(text: &mut Vec<u8>, held: &[Held]) -> Result<(), AllocError>
    ensures { IfOk result (λ _. text.new.items ≡ text.old.items ++ behind_commas (map (λ h. h.id) held.now)) }
{
    for pointer in held {
        add_labeled(text, ",", u64::from(pointer.id.get()))?;
    }
    Ok(())
}

/// Adds the line of the pointers that are still down, if any.
fn add_pointers(text: &mut Vec<u8>, device: u64, held: &[Held]) -> Result<(), AllocError>
    ensures { IfOk result (λ _. text.new.items
        ≡ text.old.items ++ hint_line device (still_down (map (λ h. h.id) held.now))) }
{
    let [first, further @ ..] = held else {
        return Ok(());
    };
    add_front(text, device)?;
    add_labeled(text, "still down ", u64::from(first.id.get()))?;
    add_further(text, further)?;
    add_word(text, "\n")
}

/// Begins the line of what is still down, or goes on with it.
fn add_scan(text: &mut Vec<u8>, device: u64, scan: u16, is_first: bool) -> Result<(), AllocError>
    ensures { IfOk result (λ _. text.new.items
        ≡ text.old.items ++ scan_words device is_first scan) }
{
    if is_first {
        add_front(text, device)?;
        add_labeled(text, "still down ", u64::from(scan))
    } else {
        add_labeled(text, ",", u64::from(scan))
    }
}

/// Adds a scan code if it is down. Returns whether no code was added yet.
fn add_if_down(
    text: &mut Vec<u8>,
    device: u64,
    keys: &KeysTally,
    scan: u16,
    is_first: bool,
) -> Result<bool, AllocError>
    ensures { (plan : DevicePlan) (past : List Event) → KeysTallyStandsFor plan past keys.now
        → IfOk result (λ b. GoesOn device past scan is_first text.old.items b text.new.items) }
{
    if !keys.is_down(scan) {
        return Ok(is_first);
    }
    add_scan(text, device, scan, is_first)?;
    Ok(false)
}

/// Adds the line of the keys that are still down, if any.
fn add_keys(text: &mut Vec<u8>, device: u64, keys: &KeysTally) -> Result<(), AllocError>
    ensures { (plan : DevicePlan) (past : List Event) → KeysTallyStandsFor plan past keys.now
        → IfOk result (λ _. text.new.items ≡ text.old.items ++ hint_line device (still_down (scans_down past))) }
{
    let mut is_first = true;
    for scan in 0..65536u32 {
        is_first = add_if_down(text, device, keys, scan as u16, is_first)?;
    }
    if is_first {
        Ok(())
    } else {
        add_word(text, "\n")
    }
}

/// Adds the hint at a touch device.
fn add_touch_hint(text: &mut Vec<u8>, device: u64, touch: &TouchTally) -> Result<(), AllocError>
    ensures { (plan : TouchPlan) (past : List Event) → TouchTallyStandsFor plan past touch.now
        → IfOk result (λ _. text.new.items ≡ text.old.items ++ hint_line device (hint_at (Touches plan) past)) }
{
    match touch_word(touch.events(), touch.counts()) {
        Some(words) => add_words(text, device, words),
        None => add_pointers(text, device, touch.held().as_slice()),
    }
}

/// Adds the hint at a device with keys.
fn add_keys_hint(text: &mut Vec<u8>, device: u64, keys: &KeysTally) -> Result<(), AllocError>
    ensures { (plan : KeysPlan) (past : List Event) → KeysTallyStandsFor (Keys plan) past keys.now
        → IfOk result (λ _. text.new.items ≡ text.old.items ++ hint_line device (hint_at (Keys plan) past)) }
{
    match keys_word(keys.events(), keys.counts()) {
        Some(words) => add_words(text, device, words),
        None => add_keys(text, device, keys),
    }
}

/// Adds the hint about a device, if there is one.
fn add_hint(text: &mut Vec<u8>, device: u64, tally: &DeviceTally) -> Result<(), AllocError>
    ensures { (plan : DevicePlan) (past : List Event) → DeviceCounted plan past tally.now
        → IfOk result (λ _. text.new.items ≡ text.old.items ++ hint_line device (hint_at plan past)) }
{
    match &tally.kind {
        TallyKind::Touch(touch) => add_touch_hint(text, device, touch),
        TallyKind::Keys(keys) => add_keys_hint(text, device, keys),
    }
}

/// Adds the hints at all devices, in the order of their numbers.
pub(crate) fn add_hints(text: &mut Vec<u8>, devices: &[DeviceTally]) -> Result<(), AllocError>
    ensures { (plans : List DevicePlan) (past : List Event) → AllCounted plans past devices.now
        → IfOk result (λ _. text.new.items ≡ text.old.items ++ each_device hint_text 1 plans past) }
{
    for (place, tally) in devices.iter().enumerate() {
        add_hint(text, place as u64 + 1, tally)?;
    }
    Ok(())
}
