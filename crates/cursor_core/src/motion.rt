//! The motions of a mouse, from its raw events.
ghost use Rattle.std.specs.Prelude.{◌≡◌, List, [], ◌∷◌, ◌&&◌, Some, None, if◌then◌else◌};
ghost use Rattle.raw_events.specs.declared.event.RawEvent.{RawEvent as Event};
ghost use Rattle.cursor_core.specs.declared.call.CursorCall.TheVariants.{Moved};
ghost use Rattle.cursor_core.specs.Packets.{is_rel, motion_of, summed};
ghost use Rattle.raw_events.specs.Packets.{is_drop, is_report};
ghost use Rattle.cursor_core.specs.Reading.{ReaderStandsFor, begun, grown};

use crate::call::CursorCall;
use input_types::Moment;
use raw_events::RawEvent;
use raw_events::codes::{EV_SYN, SYN_DROPPED, SYN_REPORT};

/// Relative axes (`EV_REL` of the kernel's `input-event-codes.h`).
const EV_REL: u16 = 0x02;

/// The distance to the right since the last event.
const REL_X: u16 = 0;

/// The distance down.
const REL_Y: u16 = 1;

/// Reads the motions of one mouse: the sums of each packet's REL_X and REL_Y events.
///
/// It keeps no list of events. Clauses say for which lists of events it stands, as far as later events need.
#[derive(Clone, Copy, Debug, PartialEq, Eq)]
pub struct MotionReader {
    void: bool,
    moved: bool,
    dx: i64,
    dy: i64,
    /// The latest moment of a packet.
    latest: Moment,
}

impl MotionReader {
    /// A reader before the first event.
    pub fn new() -> MotionReader
        ensures { ReaderStandsFor [] result }
    {
        MotionReader::begun(false, Moment::zero())
    }

    /// Takes the mouse's next event, and returns the motion of the packet that it ends: at the time of its SYN_REPORT,
    /// or at that of an earlier packet if that is later.
    ///
    /// A packet ends at a SYN_REPORT. One without a REL_X or REL_Y event moves nothing. After a SYN_DROPPED, by which
    /// the kernel reports lost events, the packet that has begun is dropped, and everything up to the next SYN_REPORT
    /// is skipped. A sum saturates at the ends of 64 bits.
    pub fn take(&mut self, event: &RawEvent) -> Option<CursorCall>
        ensures value { (past : List Event) → ReaderStandsFor past self.old → result ≡ motion_of past event.now }
        ensures after { (past : List Event) → ReaderStandsFor past self.old
            → ReaderStandsFor (event.now ∷ past) self.new }
    {
        if self.void {
            *self = MotionReader::begun(!is_report(event), self.latest);
            return None;
        }
        if is_report(event) {
            let latest = event.moment.later(self.latest);
            let motion = self.motion(latest);
            *self = MotionReader::begun(false, latest);
            return motion;
        }
        if is_drop(event) {
            *self = MotionReader::begun(true, self.latest);
            return None;
        }
        self.add(event);
        None
    }

    /// A reader before the first event of a packet, or before events that are skipped.
    fn begun(void: bool, latest: Moment) -> MotionReader
        ensures { result ≡ begun void latest }
    {
        MotionReader {
            void,
            moved: false,
            dx: 0,
            dy: 0,
            latest,
        }
    }

    /// The motion so far, if there is one.
    fn motion(&self, now: Moment) -> Option<CursorCall>
        ensures { result ≡ (if self.now.moved then Some (Moved now self.now.dx self.now.dy) else None) }
    {
        if !self.moved {
            return None;
        }
        Some(CursorCall::Moved {
            now,
            dx: self.dx,
            dy: self.dy,
        })
    }

    /// Adds an event of the packet.
    fn add(&mut self, event: &RawEvent)
        ensures { self.new ≡ grown self.old event.now }
    {
        self.moved = is_rel(event, REL_X) || is_rel(event, REL_Y) || self.moved;
        add_to(&mut self.dx, event, REL_X);
        add_to(&mut self.dy, event, REL_Y);
    }
}

/// Adds the value of an event to the sum of its axis; other events add nothing.
fn add_to(sum: &mut i64, event: &RawEvent, code: u16)
    ensures { sum.new ≡ summed code event.now sum.old }
{
    if is_rel(event, code) {
        *sum = sum.saturating_add(i64::from(event.value));
    }
}

/// Whether an event is an EV_REL of this code.
fn is_rel(event: &RawEvent, code: u16) -> bool
    ensures { result ≡ is_rel code event.now }
{
    event.kind == EV_REL && event.code == code
}

/// Whether an event is a SYN_REPORT, which ends a packet.
fn is_report(event: &RawEvent) -> bool
    ensures { result ≡ is_report event.now }
{
    event.kind == EV_SYN && event.code == SYN_REPORT
}

/// Whether an event says that events were lost.
fn is_drop(event: &RawEvent) -> bool
    ensures { result ≡ is_drop event.now }
{
    event.kind == EV_SYN && event.code == SYN_DROPPED
}
