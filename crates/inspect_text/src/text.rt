//! The whole text.
ghost use Rattle.std.specs.Prelude.{◌≡◌, ◌++◌, ℕ, List, IfOk};
ghost use Rattle.raw_events.specs.declared.event.RawEvent.{RawEvent as Event};
ghost use Rattle.raw_events.specs.Line.{Known};
ghost use Rattle.device_reader.specs.Cooked.{DevicePlan};
ghost use Rattle.recording_counts.specs.Lines.{AreRead, unknown_paths};
ghost use Rattle.recording_counts.specs.LineTally.{LineCountsStandFor, SortsLines};
ghost use Rattle.recording_counts.specs.Devices.{AllCounted};
ghost use Rattle.recording_counts.specs.Moments.{span_of};
ghost use Rattle.recording_counts.specs.EventTally.{EventTallyStandsFor};
ghost use Rattle.inspect_text.specs.CountedHints.{clock_hint, counts_hint, mark_hint};
ghost use Rattle.inspect_text.specs.Inspected.{device_text, each_device, hint_text, inspected, late_steps_hint, lines_text, no_device_hint, paths_text};
ghost use Rattle.inspect_text.specs.Lines.{moments_line};

use crate::counted_hints::{add_all_counts, add_clock_back, add_mark};
use crate::devices::add_devices;
use crate::hints::add_hints;
use crate::lines::{add_lines, add_moments, add_paths};
use crate::steps::{add_late_steps, add_steps};
use recording_counts::{DeviceTally, EventTally, LineCounts, Span};
use session_plan::Step;
use std::alloc::AllocError;
use text_lines::add_word;

/// Adds the lines, the moments, the devices and the paths of a recording.
fn add_recording(
    text: &mut Vec<u8>,
    lines: &LineCounts,
    events: &EventTally,
) -> Result<(), AllocError>
    ensures { (devices : Known) (past : List (List ℕ)) (plans : List DevicePlan) (given : List Event)
        → SortsLines devices past lines.now → LineCountsStandFor devices past lines.now
        → EventTallyStandsFor plans given events.now
        → IfOk result (λ _. text.new.items
        ≡ text.old.items
        ++ (lines_text devices past given ++ moments_line (span_of given) ++ each_device device_text 1 plans given
        ++ paths_text (unknown_paths devices past))) }
{
    add_lines(text, lines, events.events())?;
    add_moments(text, events.span())?;
    add_devices(text, events.devices())?;
    add_paths(text, &lines.paths)
}

/// Adds the hint at a session without devices.
fn add_no_device(text: &mut Vec<u8>, devices: &[DeviceTally]) -> Result<(), AllocError>
    ensures { (plans : List DevicePlan) (given : List Event) → AllCounted plans given devices.now
        → IfOk result (λ _. text.new.items ≡ text.old.items ++ no_device_hint plans) }
{
    if devices.is_empty() {
        add_word(text, "hint no device\n")
    } else {
        Ok(())
    }
}

/// Adds the hints at the events of the recording and its lines.
fn add_recording_hints(
    text: &mut Vec<u8>,
    lines: &LineCounts,
    events: &EventTally,
) -> Result<(), AllocError>
    ensures { (devices : Known) (past : List (List ℕ)) (plans : List DevicePlan) (given : List Event)
        → LineCountsStandFor devices past lines.now → EventTallyStandsFor plans given events.now
        → IfOk result (λ _. text.new.items
        ≡ text.old.items
        ++ (each_device hint_text 1 plans given ++ each_device counts_hint 1 plans given ++ clock_hint given
        ++ mark_hint past)) }
{
    add_hints(text, events.devices())?;
    add_all_counts(text, events.devices())?;
    add_clock_back(text, events.clock_back())?;
    add_mark(text, lines.marked)
}

/// Adds the hints at the session beside a recording.
fn add_session_hints(
    text: &mut Vec<u8>,
    devices: &[DeviceTally],
    span: &Option<Span>,
    steps: &[Step],
) -> Result<(), AllocError>
    ensures { (plans : List DevicePlan) (given : List Event) → AllCounted plans given devices.now
        → IfOk result (λ _. text.new.items
        ≡ text.old.items ++ (late_steps_hint span.now steps.now ++ no_device_hint plans)) }
{
    add_late_steps(text, span, steps)?;
    add_no_device(text, devices)
}

/// Adds bytes, as they are.
fn add_bytes(text: &mut Vec<u8>, bytes: &[u8]) -> Result<(), AllocError>
    ensures { IfOk result (λ _. text.new.items ≡ text.old.items ++ bytes.now) }
{
    text.extend_from_slice(bytes)
}

/// Adds what a recording and a session hold, with hints at what looks as if it was not meant so.
///
/// The counts are those of the recording's lines, none of which was refused, and of the events that these give; the
/// steps are those of the session, and `keys` are the lines of its keys that nothing reads. If memory runs out, a
/// part of the text may have been added.
pub fn inspect_text(
    text: &mut Vec<u8>,
    lines: &LineCounts,
    events: &EventTally,
    steps: &[Step],
    keys: &[u8],
) -> Result<(), AllocError>
    ensures { (devices : Known) (past : List (List ℕ)) (plans : List DevicePlan) (given : List Event)
        → LineCountsStandFor devices past lines.now → AreRead devices past → EventTallyStandsFor plans given events.now
        → IfOk result (λ _. text.new.items
        ≡ text.old.items ++ inspected devices past plans given steps.now keys.now) }
{
    add_recording(text, lines, events)?;
    let span = events.span();
    add_steps(text, &span, steps)?;
    add_bytes(text, keys)?;
    add_recording_hints(text, lines, events)?;
    add_session_hints(text, events.devices(), &span, steps)
}
