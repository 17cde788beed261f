//! What is known of a touch device.
ghost use Rattle.std.specs.Prelude.{◌≡◌, ◌<◌, ◌≤◌, ◌+◌, ℕ, true, List, [], ◌∷◌, ◌++◌, map, length, get_or, slice_set, vec_len, vec_capacity, OnOk, OnErr};
ghost use Rattle.raw_events.specs.declared.event.RawEvent.{RawEvent as Event};
ghost use Rattle.raw_events.specs.Packets.{is_report as ends_packet};
ghost use Rattle.device_reader.specs.SlotAccumulator.SlotContacts.{row_in};
ghost use Rattle.device_reader.specs.declared.pointer_ids.assigned.Held.{Held as HeldView};
ghost use Rattle.device_reader.specs.PointerIds.Assigned.{unused};
ghost use Rattle.device_reader.specs.PointerIds.Slots.{is_written as was_written, pointer_where};
ghost use Rattle.input_types.specs.Pointers.{unused as no_pointer};
ghost use Rattle.device_reader.specs.TouchMapper.Cooking.{pixel};
ghost use Rattle.device_reader.specs.TouchMapper.Gesture.{placed_all};
ghost use Rattle.device_reader.specs.Cooked.{TouchPlan, TouchStandsFor, TouchEnds, touch_args};

use crate::pointer_ids::Ids;
use crate::slot_accumulator::{Change, Row, Slots, is_report};
use crate::touch_mapper::{Cook, Gestures};
use bits32::Bits32;
use input_types::{Args, DeviceId};
use raw_events::RawEvent;
use std::alloc::AllocError;

/// The slots of a touch device, the pointer ids of its last packet, and its gestures. It takes no memory.
#[derive(Clone, Copy)]
pub(crate) struct Touch {
    slots: Slots,
    /// The slots that were written since the last packet.
    written: Bits32,
    /// Whether a tracking id was written since the last packet.
    anew: bool,
    ids: Ids,
    /// The slot of each pointer that is down, at the pointer's index.
    fingers: [u8; 16],
    gestures: Gestures,
}

impl Touch {
    /// A touch device with this many slots that has had no event.
    pub fn new(device: DeviceId, slots: u8, cook: Cook) -> Touch
        requires { (1 ≤ slots) × (slots ≤ 16) }
        ensures { TouchStandsFor (record { device = device; slots = slots; cook = cook }) [] result }
    {
        Touch {
            slots: Slots::new(slots),
            written: Bits32::empty(),
            anew: false,
            ids: Ids::new(),
            fingers: [0; 16],
            gestures: Gestures::new(device, cook),
        }
    }

    /// Takes the next event, and adds the motions of the packet that it ends.
    #[inline(always)]
    pub fn take(&mut self, event: &RawEvent, args: &mut Vec<Args>) -> Result<(), AllocError>
        ensures ok { (plan : TouchPlan) (past : List Event) → TouchStandsFor plan past self.old
            → OnOk result (args.new.items ≡ args.old.items ++ touch_args plan past event.now) }
        ensures after { (plan : TouchPlan) (past : List Event) → TouchStandsFor plan past self.old
            → OnOk result (TouchStandsFor plan (event.now ∷ past) self.new) }
        ensures err { OnErr result (self.new ≡ self.old) }
        ensures given { OnErr result (args.new.items ≡ args.old.items) }
    {
        if is_report(event) {
            return self.end_packet(event, args);
        }
        match self.slots.write(event) {
            Change::Nothing => Ok(()),
            Change::Position(slot) => {
                self.written.mark(slot);
                Ok(())
            }
            Change::Contacts => {
                self.anew = true;
                Ok(())
            }
        }
    }

    /// Takes the end of a packet, and adds its motions.
    ///
    /// If no tracking id was written and no contact is a palm, the fingers are those of the packet before: only the
    /// pointers whose slots were written get their pixels anew.
    #[inline(never)]
    fn end_packet(&mut self, event: &RawEvent, args: &mut Vec<Args>) -> Result<(), AllocError>
        requires { ends_packet event.now ≡ true }
        ensures ok { (plan : TouchPlan) (past : List Event) → TouchStandsFor plan past self.old
            → OnOk result (args.new.items ≡ args.old.items ++ touch_args plan past event.now) }
        ensures after { (plan : TouchPlan) (past : List Event) → TouchStandsFor plan past self.old
            → OnOk result (TouchStandsFor plan (event.now ∷ past) self.new) }
        ensures err { OnErr result (self.new ≡ self.old) }
        ensures given { OnErr result (args.new.items ≡ args.old.items) }
    {
        // With room for all that a packet makes nothing fails after the slots changed.
        args.reserve(Gestures::MOST)?;
        let palms = self.slots.end_packet();
        if palms || self.anew {
            self.next_fingers(args);
            return Ok(());
        }
        move_pointers(&mut self.gestures, &self.slots, self.written, &self.fingers);
        self.written = Bits32::empty();
        self.gestures.put_move(args);
        Ok(())
    }

    /// Names the fingers of a packet whose end the slots have taken, and adds its motions.
    #[inline(never)]
    fn next_fingers(&mut self, args: &mut Vec<Args>)
        requires { vec_len args.old + 33 ≤ vec_capacity args.old }
        ensures given { (plan : TouchPlan) (past : List Event) (e : Event)
            → ends_packet e ≡ true → TouchEnds plan past e self.old
            → args.new.items ≡ args.old.items ++ touch_args plan past e }
        ensures after { (plan : TouchPlan) (past : List Event) (e : Event)
            → ends_packet e ≡ true → TouchEnds plan past e self.old
            → TouchStandsFor plan (e ∷ past) self.new }
    {
        let contacts = self.slots.contacts();
        let pointers = self.ids.assign(&contacts);
        self.fingers = self.ids.slots(&contacts, &pointers);
        self.written = Bits32::empty();
        self.anew = false;
        match self.gestures.next(args, &pointers) {
            Ok(()) => {}
            Err(_) => unreachable!(),
        }
    }

    /// Begins anew, as after `new`.
    pub fn reset(&mut self)
        ensures { (plan : TouchPlan) (past : List Event) → TouchStandsFor plan past self.old
            → TouchStandsFor plan [] self.new }
    {
        self.slots.reset();
        self.written = Bits32::empty();
        self.anew = false;
        self.ids.reset();
        self.gestures.reset();
    }
}

/// Moves the pointers whose slots were written to where the slots say.
#[inline(always)]
fn move_pointers(gestures: &mut Gestures, slots: &Slots, written: Bits32, fingers: &[u8])
    requires { length fingers.now ≡ 16 }
    ensures { (hs : List HeldView) (slot : HeldView → ℕ) → gestures.old.last ≡ placed_all gestures.old.cook hs
        → ((i : ℕ) → i < length hs → get_or fingers.now i 0 ≡ slot (get_or hs i unused))
        → gestures.new ≡ record {
          device = gestures.old.device;
          cook = gestures.old.cook;
          last = placed_all gestures.old.cook
              (map (λ h. pointer_where (λ s. was_written written s) (row_in slots.now.rows) (slot h) h) hs);
        } }
{
    for i in 0..gestures.len() {
        let slot = fingers[i];
        if is_written(written, slot) {
            move_pointer(gestures, i, slots.row(slot));
        }
    }
}

/// Puts the pointer at an index where its slot says.
#[inline(always)]
fn move_pointer(gestures: &mut Gestures, i: usize, row: &Row)
    ensures { gestures.new ≡ record {
      device = gestures.old.device;
      cook = gestures.old.cook;
      last = slice_set gestures.old.last i
          (record {
            id = (get_or gestures.old.last i no_pointer).id;
            at = pixel gestures.old.cook row.now.x row.now.y;
          });
    } }
{
    gestures.move_to(i, row.x, row.y);
}

/// Whether a slot was written.
fn is_written(written: Bits32, slot: u8) -> bool
    ensures { result ≡ was_written written slot }
{
    slot < Slots::MAX && written.has(slot)
}
