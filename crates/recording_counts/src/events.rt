//! What is counted of the events of every device.
ghost use Rattle.std.specs.Prelude.{◌≡◌, ◌∷◌, [], Bool, List};
ghost use Rattle.raw_events.specs.declared.event.RawEvent.{RawEvent as Event};
ghost use Rattle.raw_events.specs.Packets.{is_void};
ghost use Rattle.device_reader.specs.SlotAccumulator.SlotValues.{is_abs};
ghost use Rattle.recording_counts.specs.Events.{event_counts, is_touch_used, is_keys_used};

use crate::number::risen_if;
use device_reader::is_drop;
use device_reader::slot_accumulator::is_report;
use raw_events::RawEvent;
use raw_events::codes::{
    ABS_MT_POSITION_X, ABS_MT_POSITION_Y, ABS_MT_SLOT, ABS_MT_TOOL_TYPE, ABS_MT_TRACKING_ID,
    EV_ABS, EV_KEY,
};

/// How many events a device has, how many of them its reader looks at, how many a drop makes void, and how many
/// SYN_DROPPED that are not void themselves. A void event counts as used too where its kind and code are looked at.
#[derive(Clone, Copy, Debug, PartialEq, Eq)]
pub struct EventCounts {
    pub events: u64,
    pub used: u64,
    pub void: u64,
    pub drops: u64,
}

impl EventCounts {
    /// Before the first event.
    pub(crate) fn new() -> EventCounts
        ensures { (is_used : Event → Bool) → result ≡ event_counts is_used [] }
    {
        EventCounts {
            events: 0,
            used: 0,
            void: 0,
            drops: 0,
        }
    }

    /// Takes the next event, which is used or not and void or not.
    #[inline(always)]
    pub(crate) fn take(&mut self, event: &RawEvent, used: bool, void: bool)
        ensures { (is_used : Event → Bool) (past : List Event) → used ≡ is_used event.now → void ≡ is_void past
            → self.old ≡ event_counts is_used past → self.new ≡ event_counts is_used (event.now ∷ past) }
    {
        self.events = risen_if(self.events, true);
        self.used = risen_if(self.used, used);
        self.void = risen_if(self.void, void);
        self.drops = risen_if(self.drops, !void && is_drop(event));
    }
}

/// Whether an event is an EV_ABS of this code.
#[inline(always)]
pub(crate) fn is_abs(event: &RawEvent, code: u16) -> bool
    ensures { result ≡ is_abs code event.now }
{
    event.kind == EV_ABS && event.code == code
}

/// Whether a reader of a touch device looks at an event.
#[inline(always)]
pub(crate) fn is_touch_used(event: &RawEvent) -> bool
    ensures { result ≡ is_touch_used event.now }
{
    (is_report(event) || is_drop(event))
        || ((is_abs(event, ABS_MT_SLOT) || is_abs(event, ABS_MT_POSITION_X))
            || ((is_abs(event, ABS_MT_POSITION_Y) || is_abs(event, ABS_MT_TRACKING_ID))
                || is_abs(event, ABS_MT_TOOL_TYPE)))
}

/// Whether a reader of a device with keys looks at an event.
#[inline(always)]
pub(crate) fn is_keys_used(event: &RawEvent) -> bool
    ensures { result ≡ is_keys_used event.now }
{
    (is_report(event) || is_drop(event)) || event.kind == EV_KEY
}
