//! The counts of one device.
ghost use Rattle.std.specs.Prelude.{◌≡◌, ◌∷◌, List, OnOk};
ghost use Rattle.raw_events.specs.declared.event.RawEvent.{RawEvent as Event};
ghost use Rattle.device_reader.specs.Cooked.{DevicePlan, args_of};
ghost use Rattle.recording_counts.specs.Devices.{DeviceCounted, KindCounted};

use crate::key_tally::KeysTally;
use crate::touch::TouchTally;
use input_types::Args;
use raw_events::RawEvent;
use std::alloc::AllocError;

/// The counts of a device by what it is.
#[derive(Drop)]
pub enum TallyKind {
    Touch(TouchTally),
    Keys(KeysTally),
}

/// The counts of a device, and how many entries for the dispatcher its reader gave.
#[derive(Drop)]
pub struct DeviceTally {
    pub kind: TallyKind,
    pub args: u64,
}

impl DeviceTally {
    /// Takes the next event of the device, and the args that its reader gave for it.
    pub(crate) fn take(&mut self, event: &RawEvent, args: &[Args]) -> Result<(), AllocError>
        ensures { (plan : DevicePlan) (past : List Event) → args.now ≡ args_of plan past event.now
            → DeviceCounted plan past self.old → OnOk result (DeviceCounted plan (event.now ∷ past) self.new) }
    {
        self.args = self.args.saturating_add(args.len() as u64);
        take_kind(&mut self.kind, event, args)
    }
}

/// Takes the next event by what the device is.
fn take_kind(kind: &mut TallyKind, event: &RawEvent, args: &[Args]) -> Result<(), AllocError>
    ensures { (plan : DevicePlan) (past : List Event) → args.now ≡ args_of plan past event.now
        → KindCounted plan past kind.old → OnOk result (KindCounted plan (event.now ∷ past) kind.new) }
{
    match kind {
        TallyKind::Touch(touch) => {
            touch.take(event);
            Ok(())
        }
        TallyKind::Keys(keys) => keys.take(event, args),
    }
}
