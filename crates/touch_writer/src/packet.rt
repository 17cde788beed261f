//! The events of one packet.
ghost use Rattle.std.specs.Prelude.{◌≡◌, ◌+◌, ◌*◌, ◌<◌, ◌≤◌, [], ◌∷◌, length, not, ◌&&◌, nat_eq};
ghost use Rattle.touch_writer.specs.Packet.{said, changes as changes_of, others as others_of};
ghost use Rattle.touch_writer.specs.Packet.{packet as packet_of, is_empty, last_slot};
ghost use Rattle.touch_writer.specs.Draft.{with_changes, with_report};

use crate::place::{Place, tracking};
use input_types::{DeviceId, Moment};
use raw_events::RawEvent;
use raw_events::codes::{
    ABS_MT_POSITION_X, ABS_MT_POSITION_Y, ABS_MT_SLOT, ABS_MT_TRACKING_ID, EV_ABS, EV_SYN,
    SYN_REPORT,
};
use std::marker::Model;

/// The most events of a packet: three of the current slot, four of each of 16 slots, and a SYN_REPORT.
const MOST_EVENTS: usize = 68;

/// The events of a packet so far. Contracts see them as a list.
#[derive(Drop)]
pub struct Draft {
    items: [RawEvent; 68],
    used: usize,
    device: DeviceId,
    moment: Moment,
}

impl Model for Draft {
    ghost use Rattle.std.specs.Prelude.{◌≡◌, ◌≤◌, take, length};
    ghost use Rattle.touch_writer.specs.Draft.{Drafted};

    ghost Value = { Drafted };

    ghost view = { λ d. record { device = d.device; moment = d.moment; events = take d.used d.items } };

    ghost invariant = { λ d. (length d.items ≡ 68) × (d.used ≤ 68) };
}

impl Draft {
    /// A packet of this device at this time without events.
    fn new(device: DeviceId, moment: Moment) -> Draft
        ensures { result ≡ record { device = device; moment = moment; events = [] } }
    {
        let unused = RawEvent {
            device,
            moment,
            kind: EV_SYN,
            code: SYN_REPORT,
            value: 0,
        };
        Draft {
            items: [unused; 68],
            used: 0,
            device,
            moment,
        }
    }

    /// The events as a slice.
    pub(crate) fn as_slice(&self) -> &[RawEvent]
        ensures { result.now ≡ self.now.events }
    {
        &self.items[..self.used]
    }

    /// Appends an EV_ABS event.
    fn push(&mut self, code: u16, value: i32)
        requires { length self.old.events < 68 }
        ensures { self.new ≡ with_changes self.old ((code, value) ∷ []) }
    {
        self.items[self.used] = RawEvent {
            device: self.device,
            moment: self.moment,
            kind: EV_ABS,
            code,
            value,
        };
        self.used += 1;
    }

    /// Appends the SYN_REPORT.
    fn report(&mut self)
        requires { length self.old.events < 68 }
        ensures { self.new ≡ with_report self.old }
    {
        self.items[self.used] = RawEvent {
            device: self.device,
            moment: self.moment,
            kind: EV_SYN,
            code: SYN_REPORT,
            value: 0,
        };
        self.used += 1;
    }
}

/// Writes a value if it changes.
fn say(draft: &mut Draft, code: u16, old: i32, new: i32)
    requires { length draft.old.events < 68 }
    ensures { draft.new ≡ with_changes draft.old (said code old new) }
{
    if old != new {
        draft.push(code, new);
    }
}

/// Writes the changes of a slot.
fn say_changes(draft: &mut Draft, old: &Place, new: &Place)
    requires { length draft.old.events + 3 ≤ 68 }
    ensures { draft.new ≡ with_changes draft.old (changes_of old.now new.now) }
{
    say(draft, ABS_MT_TRACKING_ID, tracking(old), tracking(new));
    say(draft, ABS_MT_POSITION_X, old.x, new.x);
    say(draft, ABS_MT_POSITION_Y, old.y, new.y);
}

/// Whether a slot has no changes.
fn is_same(old: &Place, new: &Place) -> bool
    ensures { result ≡ is_empty (changes_of old.now new.now) }
{
    tracking(old) == tracking(new) && old.x == new.x && old.y == new.y
}

/// Whether a slot is another one than the current slot, and has changes.
fn has_turn(current: usize, slot: usize, old: &Place, new: &Place) -> bool
    ensures { result ≡ (not (nat_eq slot current) && not (is_empty (changes_of old.now new.now))) }
{
    slot != current && !is_same(old, new)
}

/// Writes the changes of the slots other than the current one, and returns the slot that is current after them.
fn say_others(draft: &mut Draft, current: usize, old: &[Place], new: &[Place]) -> usize
    requires room { length draft.old.events + 4 * length old.now ≤ 68 }
    requires slots { length new.now ≡ length old.now }
    ensures events { draft.new ≡ with_changes draft.old (others_of current 0 old.now new.now) }
    ensures last { result ≡ last_slot current current 0 old.now new.now }
{
    let mut last = current;
    for slot in 0..old.len() {
        if has_turn(current, slot, &old[slot], &new[slot]) {
            draft.push(ABS_MT_SLOT, slot as i32);
            say_changes(draft, &old[slot], &new[slot]);
            last = slot;
        }
    }
    last
}

/// The packet that leads from what the slots hold to what they must hold, and the slot that is current after it.
pub(crate) fn packet(
    device: DeviceId,
    moment: Moment,
    current: usize,
    old: &[Place],
    new: &[Place],
) -> (Draft, usize)
    requires slots { (length old.now ≤ 16) × (length new.now ≡ length old.now) }
    requires current { current < length old.now }
    ensures events { result.0.events ≡ packet_of device moment current old.now new.now }
    ensures last { result.1 ≡ last_slot current current 0 old.now new.now }
{
    let mut draft = Draft::new(device, moment);
    say_changes(&mut draft, &old[current], &new[current]);
    let last = say_others(&mut draft, current, old, new);
    draft.report();
    (draft, last)
}
