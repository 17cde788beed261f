//! What is counted of a touch device.
ghost use Rattle.std.specs.Prelude.{◌≡◌, ◌≤◌, ◌∷◌, [], ℕ, List, length, true};
ghost use Rattle.raw_events.specs.declared.event.RawEvent.{RawEvent as Event};
ghost use Rattle.raw_events.specs.Packets.{is_void};
ghost use Rattle.device_reader.specs.declared.slot_accumulator.contacts.Contact.{Contact as ContactView};
ghost use Rattle.device_reader.specs.SlotAccumulator.SlotContacts.{SlotsStandFor, contacts_at};
ghost use Rattle.device_reader.specs.PointerIds.PointerIds.{assigned, fingers as fingers_of, named_after};
ghost use Rattle.device_reader.specs.Cooked.{TouchPlan};
ghost use Rattle.recording_counts.specs.Touch.{TouchTallyStandsFor, TouchesAfter, ends_contact, held_at, is_astray, is_beyond};
ghost use Rattle.recording_counts.specs.Touch.{is_outside, packet_at, palms as palms_of};
ghost use Rattle.recording_counts.specs.Touch.{ranges_of, touch_counts};
ghost use Rattle.recording_counts.specs.Events.{event_counts, is_touch_used as touch_used};

use crate::events::{EventCounts, is_abs, is_touch_used};
use crate::number::{greater, risen_if};
use device_reader::is_drop;
use device_reader::pointer_ids::{Assigned, Ids};
use device_reader::slot_accumulator::{Contact, Contacts, Slots, is_report};
use input_types::Axis;
use raw_events::RawEvent;
use raw_events::codes::{ABS_MT_POSITION_X, ABS_MT_POSITION_Y, ABS_MT_SLOT, EV_SYN};

/// The ABS_X and ABS_Y of devices that speak no multi-touch protocol.
const ABS_X: u16 = 0x00;

const ABS_Y: u16 = 0x01;

/// The SYN_MT_REPORT of multi-touch protocol A.
const SYN_MT_REPORT: u16 = 2;

/// The axes of a touch device, and how many slots it has.
#[derive(Clone, Copy)]
pub struct Ranges {
    pub x: Axis,
    pub y: Axis,
    pub slots: u8,
}

/// What only touch devices count. Void events count for none of the first five.
#[derive(Clone, Copy, Debug, PartialEq, Eq)]
pub struct TouchCounts {
    pub packets: u64,
    /// The most fingers at the end of one packet.
    pub fingers: u64,
    /// The most palms at the end of one packet.
    pub palms: u64,
    /// Positions outside their axis.
    pub clamped: u64,
    /// Slots that the device does not have.
    pub strayed: u64,
    /// Whether an ABS_X or ABS_Y came.
    pub single: bool,
    /// Whether a position of a contact came.
    pub placed: bool,
    /// Whether a SYN_MT_REPORT came.
    pub protocol_a: bool,
}

impl TouchCounts {
    fn new() -> TouchCounts
        ensures { (r : Ranges) → result ≡ touch_counts r [] }
    {
        TouchCounts {
            packets: 0,
            fingers: 0,
            palms: 0,
            clamped: 0,
            strayed: 0,
            single: false,
            placed: false,
            protocol_a: false,
        }
    }

    /// Takes the next event, which is void or not and ends this packet or none.
    fn take(&mut self, ranges: &Ranges, event: &RawEvent, void: bool, packet: &Option<Contacts>)
        ensures { (past : List Event) → void ≡ is_void past → packet.now ≡ packet_at ranges.now.slots past event.now
            → self.old ≡ touch_counts ranges.now past → self.new ≡ touch_counts ranges.now (event.now ∷ past) }
    {
        self.clamped = risen_if(self.clamped, !void && is_outside(ranges, event));
        self.strayed = risen_if(self.strayed, !void && is_astray(ranges, event));
        self.single = is_abs(event, ABS_X) || is_abs(event, ABS_Y) || self.single;
        self.placed = is_abs(event, ABS_MT_POSITION_X)
            || is_abs(event, ABS_MT_POSITION_Y)
            || self.placed;
        self.protocol_a = ends_contact(event) || self.protocol_a;
        if let Some(contacts) = packet {
            self.packets = risen_if(self.packets, true);
            self.fingers = greater(fingers(contacts.as_slice()), self.fingers);
            self.palms = greater(palms(contacts.as_slice()), self.palms);
        }
    }
}

/// How many contacts are fingers.
fn fingers(contacts: &[Contact]) -> u64
    requires { length contacts.now ≤ 16 }
    ensures { result ≡ length (fingers_of contacts.now) }
{
    contacts.iter().filter(|c| !c.palm).count() as u64
}

/// How many contacts are palms.
fn palms(contacts: &[Contact]) -> u64
    requires { length contacts.now ≤ 16 }
    ensures { result ≡ length (palms_of contacts.now) }
{
    contacts.iter().filter(|c| c.palm).count() as u64
}

/// Whether a position is outside its axis.
fn is_beyond(axis: &Axis, value: i32) -> bool
    ensures { result ≡ is_beyond axis.now value }
{
    value < axis.min || axis.max < value
}

/// Whether an event is a position outside its axis.
fn is_outside(ranges: &Ranges, event: &RawEvent) -> bool
    ensures { result ≡ is_outside ranges.now event.now }
{
    (is_abs(event, ABS_MT_POSITION_X) && is_beyond(&ranges.x, event.value))
        || (is_abs(event, ABS_MT_POSITION_Y) && is_beyond(&ranges.y, event.value))
}

/// Whether an event chooses a slot that the device does not have.
fn is_astray(ranges: &Ranges, event: &RawEvent) -> bool
    ensures { result ≡ is_astray ranges.now event.now }
{
    is_abs(event, ABS_MT_SLOT) && !(0 <= event.value && event.value < i32::from(ranges.slots))
}

/// Whether an event ends a contact in protocol A.
fn ends_contact(event: &RawEvent) -> bool
    ensures { result ≡ ends_contact event.now }
{
    event.kind == EV_SYN && event.code == SYN_MT_REPORT
}

/// What is known of the contacts of a touch device: whether what comes is void, its slots, the ids of its fingers, and
/// the pointers of its last packet.
#[derive(Clone, Copy)]
pub(crate) struct Touching {
    void: bool,
    slots: Slots,
    ids: Ids,
    held: Assigned,
}

impl Touching {
    fn new(slots: u8) -> Touching
        requires { (1 ≤ slots) × (slots ≤ 16) }
        ensures { TouchesAfter slots [] result }
    {
        Touching {
            void: false,
            slots: Slots::new(slots),
            ids: Ids::new(),
            held: Assigned::empty(),
        }
    }

    /// Takes the next event, and returns the contacts at the end of the packet that it ends.
    fn take(&mut self, event: &RawEvent) -> Option<Contacts>
        ensures packet { (slots : ℕ) (past : List Event) → TouchesAfter slots past self.old
            → result ≡ packet_at slots past event.now }
        ensures after { (slots : ℕ) (past : List Event) → TouchesAfter slots past self.old
            → TouchesAfter slots (event.now ∷ past) self.new }
    {
        if self.void {
            self.void = !is_report(event);
            return None;
        }
        if is_drop(event) {
            self.drop_all();
            return None;
        }
        self.slots.take(*event);
        if is_report(event) {
            Some(self.end_packet())
        } else {
            None
        }
    }

    /// Forgets all contacts at a drop.
    fn drop_all(&mut self)
        ensures void { self.new.void ≡ true }
        ensures slots { SlotsStandFor [] self.new.slots }
        ensures as_many { self.new.slots.slots ≡ self.old.slots.slots }
        ensures ids { self.new.ids ≡ named_after [] }
        ensures held { self.new.held.pointers ≡ [] }
    {
        self.void = true;
        self.slots.reset();
        self.ids.reset();
        self.held = Assigned::empty();
    }

    /// Gives the fingers of the packet that ended their ids, and returns its contacts.
    fn end_packet(&mut self) -> Contacts
        ensures contacts { (past : List Event) → SlotsStandFor past self.old.slots
            → result ≡ contacts_at self.old.slots.slots past }
        ensures void { self.new.void ≡ self.old.void }
        ensures slots { self.new.slots ≡ self.old.slots }
        ensures ids { (past : List (List ContactView)) → self.old.ids ≡ named_after past
            → self.new.ids ≡ named_after (result ∷ past) }
        ensures held { self.new.held.pointers ≡ assigned self.new.ids }
    {
        let contacts = self.slots.contacts();
        self.held = self.ids.assign(&contacts);
        contacts
    }

    /// The pointers that the reader of the device holds, in rising id.
    fn held(&self) -> &Assigned
        ensures { (slots : ℕ) (past : List Event) → TouchesAfter slots past self.now
            → result.now.pointers ≡ held_at slots past }
    {
        &self.held
    }
}

/// The counts of one touch device. It is `Copy` and takes no memory.
#[derive(Clone, Copy)]
pub struct TouchTally {
    ranges: Ranges,
    touching: Touching,
    events: EventCounts,
    counts: TouchCounts,
}

impl TouchTally {
    /// A touch device with this many slots, before its first event.
    pub fn new(x: Axis, y: Axis, slots: u8) -> TouchTally
        requires { (1 ≤ slots) × (slots ≤ 16) }
        ensures { (plan : TouchPlan) → ranges_of plan ≡ record { x = x; y = y; slots = slots }
            → TouchTallyStandsFor plan [] result }
    {
        TouchTally {
            ranges: Ranges { x, y, slots },
            touching: Touching::new(slots),
            events: EventCounts::new(),
            counts: TouchCounts::new(),
        }
    }

    /// Takes the next event of the device.
    pub fn take(&mut self, event: &RawEvent)
        ensures { (plan : TouchPlan) (past : List Event) → TouchTallyStandsFor plan past self.old
            → TouchTallyStandsFor plan (event.now ∷ past) self.new }
    {
        let void = self.touching.void;
        self.events.take(event, is_touch_used(event), void);
        let packet = self.touching.take(event);
        self.counts.take(&self.ranges, event, void, &packet);
    }

    /// What is counted of the events of every device.
    pub fn events(&self) -> &EventCounts
        ensures { (plan : TouchPlan) (past : List Event) → TouchTallyStandsFor plan past self.now
            → result.now ≡ event_counts touch_used past }
    {
        &self.events
    }

    /// What only touch devices count.
    pub fn counts(&self) -> &TouchCounts
        ensures { (plan : TouchPlan) (past : List Event) → TouchTallyStandsFor plan past self.now
            → result.now ≡ touch_counts (ranges_of plan) past }
    {
        &self.counts
    }

    /// The pointers that the reader of the device holds, in rising id.
    pub fn held(&self) -> &Assigned
        ensures { (plan : TouchPlan) (past : List Event) → TouchTallyStandsFor plan past self.now
            → result.now.pointers ≡ held_at plan.slots past }
    {
        self.touching.held()
    }
}
