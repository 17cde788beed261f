//! What is counted of each device.
ghost use Rattle.std.specs.Prelude.{◌≡◌, ◌++◌, List, codes, decimal, IfOk};
ghost use Rattle.raw_events.specs.declared.event.RawEvent.{RawEvent as Event};
ghost use Rattle.device_reader.specs.Cooked.{DevicePlan};
ghost use Rattle.recording_counts.specs.Devices.{AllCounted, DeviceCounted};
ghost use Rattle.inspect_text.specs.Inspected.{device_text, each_device};
ghost use Rattle.inspect_text.specs.Lines.{event_words, key_words, keys_line, touch_line, touch_words};

use recording_counts::{DeviceTally, EventCounts, KeyCounts, TallyKind, TouchCounts};
use std::alloc::AllocError;
use text_lines::{add_labeled, add_word};

/// Adds what is counted of every device.
fn add_events(text: &mut Vec<u8>, counts: &EventCounts) -> Result<(), AllocError>
    ensures { IfOk result (λ _. text.new.items ≡ text.old.items ++ event_words counts.now) }
{
    add_labeled(text, " events ", counts.events)?;
    add_labeled(text, " used ", counts.used)?;
    add_labeled(text, " void ", counts.void)?;
    add_labeled(text, " drops ", counts.drops)
}

/// Adds what is counted of touch devices.
fn add_touches(text: &mut Vec<u8>, counts: &TouchCounts) -> Result<(), AllocError>
    ensures { IfOk result (λ _. text.new.items ≡ text.old.items ++ touch_words counts.now) }
{
    add_labeled(text, " packets ", counts.packets)?;
    add_labeled(text, " fingers ", counts.fingers)?;
    add_labeled(text, " palms ", counts.palms)?;
    add_labeled(text, " clamped ", counts.clamped)?;
    add_labeled(text, " strayed ", counts.strayed)
}

/// Adds what is counted of devices with keys.
fn add_keys(text: &mut Vec<u8>, counts: &KeyCounts) -> Result<(), AllocError>
    ensures { IfOk result (λ _. text.new.items ≡ text.old.items ++ key_words counts.now) }
{
    add_labeled(text, " downs ", counts.downs)?;
    add_labeled(text, " unnamed ", counts.unnamed)
}

/// Ends the line of a device with how many args are its own.
fn add_args(text: &mut Vec<u8>, args: u64) -> Result<(), AllocError>
    ensures { IfOk result (λ _. text.new.items ≡ text.old.items ++ (codes " args " ++ decimal args ++ codes "\n")) }
{
    add_labeled(text, " args ", args)?;
    add_word(text, "\n")
}

/// Adds the line of a touch device.
fn add_touch_device(
    text: &mut Vec<u8>,
    device: u64,
    events: &EventCounts,
    touches: &TouchCounts,
    args: u64,
) -> Result<(), AllocError>
    ensures { IfOk result (λ _. text.new.items
        ≡ text.old.items ++ touch_line device events.now touches.now args) }
{
    add_labeled(text, "device ", device)?;
    add_word(text, " touch")?;
    add_events(text, events)?;
    add_touches(text, touches)?;
    add_args(text, args)
}

/// Adds the line of a device with keys.
fn add_keys_device(
    text: &mut Vec<u8>,
    device: u64,
    events: &EventCounts,
    keys: &KeyCounts,
    args: u64,
) -> Result<(), AllocError>
    ensures { IfOk result (λ _. text.new.items
        ≡ text.old.items ++ keys_line device events.now keys.now args) }
{
    add_labeled(text, "device ", device)?;
    add_word(text, " keys")?;
    add_events(text, events)?;
    add_keys(text, keys)?;
    add_args(text, args)
}

/// Adds the line of a device.
fn add_device(text: &mut Vec<u8>, device: u64, tally: &DeviceTally) -> Result<(), AllocError>
    ensures { (plan : DevicePlan) (past : List Event) → DeviceCounted plan past tally.now
        → IfOk result (λ _. text.new.items ≡ text.old.items ++ device_text device plan past) }
{
    match &tally.kind {
        TallyKind::Touch(touch) => {
            add_touch_device(text, device, touch.events(), touch.counts(), tally.args)
        }
        TallyKind::Keys(keys) => {
            add_keys_device(text, device, keys.events(), keys.counts(), tally.args)
        }
    }
}

/// Adds the lines of all devices, in the order of their numbers.
pub(crate) fn add_devices(text: &mut Vec<u8>, devices: &[DeviceTally]) -> Result<(), AllocError>
    ensures { (plans : List DevicePlan) (past : List Event) → AllCounted plans past devices.now
        → IfOk result (λ _. text.new.items ≡ text.old.items ++ each_device device_text 1 plans past) }
{
    for (place, tally) in devices.iter().enumerate() {
        add_device(text, place as u64 + 1, tally)?;
    }
    Ok(())
}
