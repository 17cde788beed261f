//! The slots of a device.
ghost use Rattle.std.specs.Prelude.{◌≡◌, ℕ, ◌<◌, ◌≤◌, List, [], ◌∷◌, MatchOption, ℤ, pos, true, false, not, ◌&&◌};
ghost use Rattle.std.specs.Prelude.{◌||◌, int_le, nat_eq};
ghost use Rattle.raw_events.specs.declared.event.RawEvent.{RawEvent as Event};
ghost use Rattle.device_reader.specs.SlotAccumulator.SlotValues.{row_after, is_slot};
ghost use Rattle.device_reader.specs.SlotAccumulator.Changes.{Changes};
ghost use Rattle.device_reader.specs.SlotAccumulator.Contacts.{has_tracking};
ghost use Rattle.device_reader.specs.SlotAccumulator.Table.{is_kept};
ghost use Rattle.raw_events.specs.Packets.{is_report as ends_packet};
ghost use Rattle.device_reader.specs.SlotAccumulator.SlotContacts.{contact as contact_of, contacts_at, contacts_in, contacts_of};
ghost use Rattle.device_reader.specs.SlotAccumulator.SlotContacts.{row_in, SlotsStandFor};

use crate::slot_accumulator::change::Change;
use crate::slot_accumulator::contacts::{Contact, Contacts, tracked};
use crate::slot_accumulator::palm_slots::{no_palm, note_palms, tool_after};
use crate::slot_accumulator::palms::{Palms, is_kept};
use crate::slot_accumulator::report::is_report;
use raw_events::RawEvent;
use raw_events::codes::{
    ABS_MT_POSITION_X, ABS_MT_POSITION_Y, ABS_MT_SLOT, ABS_MT_TOOL_TYPE, ABS_MT_TRACKING_ID, EV_ABS,
};
use std::marker::Model;

/// What was last written to one slot.
#[derive(Clone, Copy, Debug, PartialEq, Eq)]
pub struct Row {
    pub tracking: i32,
    pub x: i32,
    pub y: i32,
    pub tool: i32,
}

/// The slots of one device, as its events leave them. It is `Copy` and takes no memory.
///
/// Contracts see the number of slots, the current slot, the rows of 16 slots, of which only those of the device count,
/// and the tracking ids that belonged to palms at the end of the last packet.
#[derive(Clone, Copy, Debug, PartialEq, Eq)]
pub struct Slots {
    rows: [Row; 16],
    palms: Palms,
    current: i32,
    slots: u8,

    /// Whether the tool type of a row is that of a palm.
    palm_tool: bool,
}

impl Model for Slots {
    ghost use Rattle.std.specs.Prelude.{◌≡◌};
    ghost use Rattle.std.specs.List.{list_any};
    ghost use Rattle.device_reader.specs.SlotAccumulator.Table.{Table, IsTable};
    ghost use Rattle.device_reader.specs.SlotAccumulator.SlotContacts.{has_palm_tool};

    ghost Value = { Table };

    ghost view = { λ s. record { slots = s.slots; current = s.current; rows = s.rows; palms = s.palms } };

    ghost invariant = { λ s. IsTable s.slots s.rows × (list_any (λ r. has_palm_tool r) s.rows ≡ s.palm_tool) };

    ghost inverse = { λ t. record {
      rows = t.rows;
      palms = t.palms;
      current = t.current;
      slots = t.slots;
      palm_tool = list_any (λ r. has_palm_tool r) t.rows;
    } };

    ghost inverse_ok = { λ s h i. record {
      rows = s.rows;
      palms = s.palms;
      current = s.current;
      slots = s.slots;
      palm_tool = h.1 i;
    } };
}

impl Slots {
    /// The most slots of a device.
    pub const MAX: u8 = 16;

    /// The slots 0 to `slots - 1`, without a contact, at position (0, 0) and with tool type 0, and with slot 0 as the
    /// current one.
    pub fn new(slots: u8) -> Slots
        requires { (1 ≤ slots) × (slots ≤ 16) }
        ensures state { SlotsStandFor [] result }
        ensures slots { result.slots ≡ slots }
        ensures contacts { contacts_in result ≡ [] }
    {
        let row = Row {
            tracking: -1,
            x: 0,
            y: 0,
            tool: 0,
        };
        Slots {
            rows: [row; 16],
            palms: Palms::empty(),
            current: 0,
            slots,
            palm_tool: false,
        }
    }

    /// Takes the next event of the device. Events that are neither about slots nor the end of a packet change nothing.
    ///
    /// As the kernel's multi-touch document says, ABS_MT_SLOT sets the current slot, and the attributes that follow are
    /// written to it. Those written while the current slot is none of the device's are never seen. A SYN_REPORT notes
    /// which contacts are palms: those whose tool type is MT_TOOL_PALM, and those that were palms at the end of the
    /// packet before.
    pub fn take(&mut self, event: RawEvent)
        ensures state { (past : List Event) → SlotsStandFor past self.old → SlotsStandFor (event ∷ past) self.new }
        ensures slots { self.new.slots ≡ self.old.slots }
    {
        if is_report(&event) {
            let _ = self.end_packet();
            return;
        }
        let _ = self.write(&event);
    }

    /// Takes an event that ends no packet, and returns what it changes among the contacts.
    #[inline(always)]
    pub fn write(&mut self, event: &RawEvent) -> Change
        requires { ends_packet event.now ≡ false }
        ensures state { (past : List Event) → SlotsStandFor past self.old → SlotsStandFor (event.now ∷ past) self.new }
        ensures slots { self.new.slots ≡ self.old.slots }
        ensures change { Changes result self.old self.new }
    {
        if event.kind != EV_ABS {
            return Change::Nothing;
        }
        if event.code == ABS_MT_SLOT {
            self.current = event.value;
            return Change::Nothing;
        }
        if let Some(at) = place(self.current) {
            // Most events are positions, which say nothing of palms.
            if event.code == ABS_MT_POSITION_X {
                let row = with_x(&self.rows[at], event);
                self.rows[at] = row;
                return Change::Position(at as u8);
            }
            if event.code == ABS_MT_POSITION_Y {
                let row = with_y(&self.rows[at], event);
                self.rows[at] = row;
                return Change::Position(at as u8);
            }
            let row = written(&self.rows[at], event);
            self.rows[at] = row;
            self.palm_tool = tool_after(event.code, self.palm_tool, &self.rows);
            if event.code == ABS_MT_TRACKING_ID {
                return Change::Contacts;
            }
            return Change::Position(at as u8);
        }
        Change::Nothing
    }

    /// Takes a SYN_REPORT: records the palms, and returns whether there may be one. If not, no contact is a palm, none
    /// was one at the end of the packet before, and nothing changes.
    #[inline(always)]
    pub fn end_packet(&mut self) -> bool
        ensures state { (past : List Event) (e : Event) → ends_packet e ≡ true → SlotsStandFor past self.old
            → SlotsStandFor (e ∷ past) self.new }
        ensures slots { self.new.slots ≡ self.old.slots }
        ensures same { result ≡ false → self.new ≡ self.old }
        ensures none { result ≡ false → (tracking : ℤ) → is_kept self.new.palms tracking ≡ false }
        ensures contacts { (past : List Event) (e : Event) → ends_packet e ≡ true → SlotsStandFor past self.old
            → contacts_in self.new ≡ contacts_at self.old.slots (e ∷ past) }
    {
        let none = no_palm(self.palm_tool, &self.palms);
        let rows = self.rows.split_at(usize::from(self.slots)).0;
        note_palms(rows, self.palm_tool, &mut self.palms);
        !none
    }

    /// The contacts now: the slots of the device whose tracking id is not negative and is that of no lower slot, each
    /// with whether it was recorded as a palm. After a SYN_REPORT they are the contacts at the end of its packet.
    pub fn contacts(&self) -> Contacts
        ensures now { result ≡ contacts_of (row_in self.now.rows) (λ t. is_kept self.now.palms t) self.now.slots }
        ensures events { (past : List Event) → SlotsStandFor past self.now → result ≡ contacts_at self.now.slots past }
    {
        let mut contacts = Contacts::empty();
        for slot in 0..self.slots {
            let row = &self.rows[usize::from(slot)];
            if is_contact(row, contacts.as_slice()) {
                contacts.push(contact(slot, row, &self.palms));
            }
        }
        contacts
    }

    /// What was last written to a slot. Slots that the device does not have are read as the kernel's other slots are.
    #[inline(always)]
    pub fn row(&self, slot: u8) -> &Row
        requires { slot < 16 }
        ensures { result.now ≡ row_in self.now.rows slot }
    {
        &self.rows[usize::from(slot)]
    }

    /// Begins anew, as after `new` with the same number of slots.
    pub fn reset(&mut self)
        ensures state { SlotsStandFor [] self.new }
        ensures slots { self.new.slots ≡ self.old.slots }
        ensures contacts { contacts_in self.new ≡ [] }
    {
        *self = Slots::new(self.slots);
    }
}

/// The place in the table of the slot with this number.
fn place(slot: i32) -> Option<usize>
    ensures { MatchOption result ((k : ℕ) → k < 16 → is_slot slot k ≡ false) (λ k. (k < 16) × (slot ≡ pos k)) }
{
    if slot >= 0 {
        if slot < 16 {
            return Some(slot as usize);
        }
    }
    None
}

/// A slot after an ABS_MT_POSITION_X was written to it.
#[inline(always)]
fn with_x(row: &Row, event: &RawEvent) -> Row
    requires { event.now.code ≡ 53 }
    ensures { result ≡ row_after event.now.code event.now.value row.now }
{
    let mut after = *row;
    after.x = event.value;
    after
}

/// A slot after an ABS_MT_POSITION_Y was written to it.
#[inline(always)]
fn with_y(row: &Row, event: &RawEvent) -> Row
    requires { event.now.code ≡ 54 }
    ensures { result ≡ row_after event.now.code event.now.value row.now }
{
    let mut after = *row;
    after.y = event.value;
    after
}

/// A slot after an EV_ABS event was written to it that is no position.
fn written(row: &Row, event: &RawEvent) -> Row
    requires x { nat_eq event.now.code 53 ≡ false }
    requires y { nat_eq event.now.code 54 ≡ false }
    ensures { result ≡ row_after event.now.code event.now.value row.now }
{
    let mut after = *row;
    match event.code {
        ABS_MT_TRACKING_ID => after.tracking = event.value,
        ABS_MT_TOOL_TYPE => after.tool = event.value,
        _ => {}
    }
    after
}

/// Whether a slot holds a contact, given the contacts of the lower slots.
fn is_contact(row: &Row, lower: &[Contact]) -> bool
    ensures { result ≡ (int_le (pos 0) row.now.tracking && not (has_tracking row.now.tracking lower.now)) }
{
    if row.tracking < 0 {
        return false;
    }
    !tracked(lower, row.tracking)
}

/// The contact that a slot holds.
fn contact(slot: u8, row: &Row, palms: &Palms) -> Contact
    ensures { result ≡ contact_of (λ t. is_kept palms.now t) slot row.now }
{
    Contact {
        slot,
        tracking: row.tracking,
        x: row.x,
        y: row.y,
        palm: is_kept(palms, row.tracking),
    }
}
