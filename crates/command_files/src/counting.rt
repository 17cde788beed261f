//! A recording that is read piece by piece, and its counts.
ghost use Rattle.std.specs.Prelude.{ℕ, [], List, length, IfOk, IfErr};
ghost use Rattle.session_plan.specs.Plan.{PlanData};
ghost use Rattle.session_plan.specs.Valid.{IsKind, IsPlan};
ghost use Rattle.session_plan.specs.View.{plan_view};
ghost use Rattle.recording_counts.specs.Devices.{AllCounted, KindCounted};
ghost use Rattle.recording_counts.specs.RecordingTally.{IsCounted};
ghost use Rattle.command_files.specs.Cooked.{device_plan, plans_of};
ghost use Rattle.command_files.specs.Counting.{CountsOn, HasTaken};
ghost use Rattle.command_files.specs.Devices.{devices_of};
ghost use Rattle.command_files.specs.Recorded.{RefusesEvents};
ghost use Rattle.command_files.specs.Taking.{more_behind, none_behind};

use crate::devices::{numbered_devices, readers_of};
use crate::recording::{passed_over, recording_refusal};
use crate::refusal::Refusal;
use crate::taker::Taker;
use raw_events::{LineError, LineReader};
use recording_counts::{
    DeviceTally, EventTally, KeysTally, LineTally, RecordingTally, TallyKind, TouchTally,
};
use session_plan::{DeviceKind, Display, Plan};
use std::alloc::{AllocError, Global};
use std::marker::Model;

/// A recording that is being counted. After a refused line nothing more is counted.
#[derive(Drop)]
pub struct Counting {
    tally: RecordingTally,
    /// Why a line is refused, if one is.
    refused: Option<LineError>,
}

impl Model for Counting {
    ghost use Rattle.command_files.specs.Counting.{CountingState};

    ghost Value = { CountingState };

    ghost view = { λ c. record { tally = c.tally; refused = c.refused } };
}

/// The counts of a device that has had no event, in a session with these displays.
fn tally_of(alloc: Global, displays: &[Display], kind: &DeviceKind) -> TallyKind
    requires { IsKind (length displays.now) kind.now }
    ensures { (number : ℕ) → KindCounted (device_plan displays.now number kind.now) [] result }
{
    match kind {
        DeviceKind::Touch { slots, x, y, .. } => TallyKind::Touch(TouchTally::new(*x, *y, *slots)),
        DeviceKind::Keys { .. } => TallyKind::Keys(KeysTally::new(alloc)),
    }
}

/// The counts of all devices, before the first event.
fn tallies_of(alloc: Global, plan: &Plan) -> Result<Vec<DeviceTally>, AllocError>
    requires { IsPlan plan.now }
    ensures { IfOk result (λ all. AllCounted (plans_of (plan_view plan.now)) [] all.items) }
{
    let mut tallies = Vec::new(alloc);
    for device in &plan.devices {
        let kind = tally_of(alloc, &plan.displays, &device.kind);
        tallies.push(DeviceTally { kind, args: 0 })?;
    }
    Ok(tallies)
}

impl Counting {
    /// A recording of the devices of a session, before its first byte.
    pub fn new(alloc: Global, plan: &Plan) -> Result<Counting, AllocError>
        requires { IsPlan plan.now }
        ensures { IfOk result (HasTaken (plan_view plan.now) []) }
    {
        let reader = LineReader::new(numbered_devices(alloc, plan)?)?;
        let lines = LineTally::new(numbered_devices(alloc, plan)?);
        let events = EventTally::new(alloc, readers_of(alloc, plan)?, tallies_of(alloc, plan)?);
        Ok(Counting {
            tally: RecordingTally::new(alloc, reader, lines, events),
            refused: None,
        })
    }

    /// Ends the recording, and returns its counts, or the refusal of a line.
    pub fn end(self) -> Result<RecordingTally, Refusal>
        ensures ok { (p : PlanData) (bytes : List ℕ) → HasTaken p bytes self
            → IfOk result (IsCounted (devices_of p) (plans_of p) bytes) }
        ensures err { (p : PlanData) (bytes : List ℕ) → HasTaken p bytes self → IfErr result (RefusesEvents p bytes) }
    {
        let mut counting = self;
        if let Some(error) = counting.refused {
            return Err(recording_refusal(error));
        }
        match counting.tally.finish() {
            Ok(()) => Ok(counting.tally),
            Err(error) => Err(recording_refusal(error)),
        }
    }
}

impl Taker for Counting {
    ghost use Rattle.std.specs.Prelude.{⊤};

    type Beside = ();

    ghost fits = { λ _. ⊤ };

    ghost takes = { λ _. CountsOn };

    fn take(&mut self, _beside: &(), piece: &[u8]) -> Result<(), AllocError> {
        if self.refused.is_some() {
            return Ok(());
        }
        match self.tally.feed(piece) {
            Ok(()) => Ok(()),
            Err(error) => {
                self.refused = Some(error);
                passed_over(error)
            }
        }
    }

    ghost none = { λ _ s p. none_behind (HasTaken p) s };

    ghost more = { λ _ s t u front behind f g p. more_behind (HasTaken p) s t u front behind (f p) (g p) };
}
