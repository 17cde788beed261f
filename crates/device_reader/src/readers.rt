//! The readers of all devices of a recording.
ghost use Rattle.std.specs.Prelude.{◌≡◌, max, List, [], ◌∷◌, ◌++◌, map, reverse, IfOk, OnOk, OnErr};
ghost use Rattle.std.specs.Prelude.{if◌then◌else◌};
ghost use Rattle.raw_events.specs.declared.event.RawEvent.{RawEvent as Event};
ghost use Rattle.device_reader.specs.All.{AreNumbered};
ghost use Rattle.device_reader.specs.Cooked.{DevicePlan};
ghost use Rattle.device_reader.specs.Rule.{AllKeepRule};
ghost use Rattle.device_reader.specs.CookedList.{AllStandFor, ReadersStandFor, added, cooked, latest as latest_of};

use crate::reader::DeviceReader;
use input_types::{Args, Moment};
use raw_events::RawEvent;
use std::alloc::AllocError;
use std::marker::Model;

/// The readers of all devices of a recording, and the latest time of the events that gave args.
#[derive(Drop)]
pub struct Readers {
    readers: Vec<DeviceReader>,
    latest: Moment,
}

impl Model for Readers {
    ghost use Rattle.device_reader.specs.All.{AreNumbered, ReadersState};

    ghost Value = { ReadersState };

    ghost view = { λ r. record { readers = r.readers.items; latest = r.latest } };

    ghost invariant = { λ r. AreNumbered r.readers.items };
}

impl Readers {
    /// The readers of devices that have had no event, in the order of their numbers, from 1 on.
    pub fn new(readers: Vec<DeviceReader>) -> Readers
        requires { AreNumbered readers.items }
        ensures state { (plans : List DevicePlan) → AllStandFor plans [] readers.items
            → ReadersStandFor plans [] result }
        ensures rule { (plans : List DevicePlan) (past : List Event) → AllStandFor plans [] readers.items
            → AllKeepRule plans past }
    {
        Readers {
            readers,
            latest: Moment::zero(),
        }
    }

    /// Takes the next event of the recording, adds what it gives to `args`, and returns the time of that. Out of memory
    /// leaves the readers and `args` as they were.
    ///
    /// The time is the latest one of the events that gave args up to this one, so times never fall. An event of a
    /// device without a reader adds nothing.
    #[inline(always)]
    pub fn take(&mut self, event: RawEvent, args: &mut Vec<Args>) -> Result<Moment, AllocError>
        ensures ok { (plans : List DevicePlan) (past : List Event) → ReadersStandFor plans past self.old
            → OnOk result (args.new.items ≡ args.old.items ++ added plans past event) }
        ensures moment { (plans : List DevicePlan) (past : List Event) → ReadersStandFor plans past self.old
            → IfOk result (λ m. m ≡ latest_of (cooked plans (event ∷ past))) }
        ensures cooked { (plans : List DevicePlan) (past : List Event) → ReadersStandFor plans past self.old
            → IfOk result (λ m. cooked plans (event ∷ past) ≡ reverse (map (λ a. (m, a)) (added plans past event))
            ++ cooked plans past) }
        ensures after { (plans : List DevicePlan) (past : List Event) → ReadersStandFor plans past self.old
            → OnOk result (ReadersStandFor plans (event ∷ past) self.new) }
        ensures err { OnErr result (self.new ≡ self.old) }
        ensures given { OnErr result (args.new.items ≡ args.old.items) }
    {
        let moment = event.moment;
        let before = args.len();
        take_any(&mut self.readers, &event, args)?;
        self.latest = raised(self.latest, moment, args.len() != before);
        Ok(self.latest)
    }
}

/// Takes an event by the reader of its device, and adds what it gives.
#[inline(always)]
fn take_any(
    readers: &mut [DeviceReader],
    event: &RawEvent,
    args: &mut Vec<Args>,
) -> Result<(), AllocError>
    requires { AreNumbered readers.old }
    ensures ok { (plans : List DevicePlan) (past : List Event) → AllStandFor plans past readers.old
        → OnOk result (args.new.items ≡ args.old.items ++ added plans past event.now) }
    ensures after { (plans : List DevicePlan) (past : List Event) → AllStandFor plans past readers.old
        → OnOk result (AllStandFor plans (event.now ∷ past) readers.new) }
    ensures numbered { AreNumbered readers.new }
    ensures err { OnErr result (readers.new ≡ readers.old) }
    ensures given { OnErr result (args.new.items ≡ args.old.items) }
{
    let i = usize::from(event.device.get() - 1);
    if i < readers.len() {
        readers[i].take(event, args)
    } else {
        Ok(())
    }
}

/// The latest time after an event, which may or may not add something.
fn raised(latest: Moment, moment: Moment, adds: bool) -> Moment
    ensures { result ≡ (if adds then max latest moment else latest) }
{
    if adds { latest.later(moment) } else { latest }
}
