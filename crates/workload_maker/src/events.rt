//! The events of a workload, one at a time.
ghost use Rattle.std.specs.Prelude.{◌≡◌, ◌∷◌, ◌≤◌};
ghost use Rattle.workload_maker.specs.Events.{events_of};
ghost use Rattle.workload_maker.specs.Making.{Making, left_of};
ghost use Rattle.workload_maker.specs.declared.stage.Stage.TheVariants.{Slot, Contact, Column, Row, Report};

use crate::numbers::Numbers;
use crate::stage::Stage;
use bits32::Bits32;
use input_types::{DeviceId, Moment};
use raw_events::RawEvent;
use raw_events::codes::{
    ABS_MT_POSITION_X, ABS_MT_POSITION_Y, ABS_MT_SLOT, ABS_MT_TRACKING_ID, EV_ABS, EV_SYN,
    SYN_REPORT,
};
use std::marker::Model;

/// How long after a packet the next one comes, in microseconds.
const PACKET_US: u64 = 8_000;

/// The events of a workload that were not given yet. It takes no memory, however many they are.
#[derive(Drop)]
pub struct Events {
    fingers: u8,
    numbers: Numbers,
    contacts: u32,
    held: Bits32,
    stage: Stage,
    slot: u8,
    at: Moment,
    begun: u32,
    left: u32,
}

impl Model for Events {
    ghost use Rattle.workload_maker.specs.Making.{Making, IsMaking};
    ghost use Rattle.workload_maker.specs.View.{making_of};

    ghost Value = { Making };

    ghost view = { making_of };

    ghost invariant = { λ e. IsMaking (making_of e) };
}

/// The touch device, device 1.
fn touch_device() -> DeviceId
    ensures { result ≡ 1 }
{
    DeviceId::new(1).unwrap()
}

impl Events {
    ghost use Rattle.workload_maker.specs.Events.{axis_event, begin_event, end_event, x_event, begun, ended, drawn};
    ghost use Rattle.workload_maker.specs.Making.{at_stage};
    ghost use Rattle.workload_maker.specs.Numbers.{drawn_after};

    /// The events of this many packets of this many fingers.
    pub(crate) fn new(seed: u32, packets: u32, fingers: u8) -> Events
        requires few_packets { packets ≤ 200000 }
        requires some_finger { 1 ≤ fingers }
        requires few_fingers { fingers ≤ 16 }
        ensures { left_of result ≡ events_of seed packets fingers }
    {
        Events {
            fingers,
            numbers: Numbers::new(seed),
            contacts: 0,
            held: Bits32::empty(),
            stage: Stage::Slot,
            slot: 0,
            at: Moment::zero(),
            begun: 0,
            left: packets,
        }
    }

    /// An event of the packet that is being made, on an axis.
    fn axis(&self, code: u16, value: i32) -> RawEvent
        ensures { result ≡ axis_event self.now.at code value }
    {
        RawEvent {
            device: touch_device(),
            moment: self.at,
            kind: EV_ABS,
            code,
            value,
        }
    }

    /// Begins the next packet, with the slot that it is about.
    #[tactic(auto, unfolding(crate::specs::Events::slot_of))]
    fn slot(&mut self) -> RawEvent
        requires stage { self.now.stage ≡ Slot }
        requires some { 1 ≤ self.now.left }
        ensures { left_of self.old ≡ result ∷ left_of self.new }
    {
        self.at = Moment::new(u64::from(self.begun) * PACKET_US).unwrap();
        self.begun += 1;
        self.left -= 1;
        self.slot = (self.numbers.draw() % u64::from(self.fingers)) as u8;
        self.stage = Stage::Contact;
        self.axis(ABS_MT_SLOT, i32::from(self.slot))
    }

    /// What becomes of the slot's contact.
    #[tactic(auto, unfolding(crate::specs::Events::ends))]
    fn contact(&mut self) -> RawEvent
        requires { self.now.stage ≡ Contact }
        ensures { left_of self.old ≡ result ∷ left_of self.new }
    {
        if !self.held.has(self.slot) {
            self.begin()
        } else if self.numbers.draw() % 4 == 0 {
            self.end()
        } else {
            self.column()
        }
    }

    /// The slot gets a contact.
    fn begin(&mut self) -> RawEvent
        requires { self.now.stage ≡ Contact }
        ensures event { result ≡ begin_event self.old.at self.old.now.contacts }
        ensures after { self.new ≡ at_stage Column (begun self.old.slot self.old.now) self.old }
    {
        let contact = self.contacts;
        self.contacts += 1;
        self.held.mark(self.slot);
        self.stage = Stage::Column;
        self.axis(ABS_MT_TRACKING_ID, contact as i32)
    }

    /// The slot's contact ends.
    fn end(&mut self) -> RawEvent
        ensures event { result ≡ end_event self.old.at }
        ensures after { self.new ≡ at_stage Report (ended self.old.slot self.old.now) self.old }
    {
        self.held.clear(self.slot);
        self.stage = Stage::Report;
        self.axis(ABS_MT_TRACKING_ID, -1)
    }

    /// The column of the contact's place.
    fn column(&mut self) -> RawEvent
        ensures event { result ≡ x_event self.old.at (drawn_after self.old.now.number) }
        ensures after { self.new ≡ at_stage Row (drawn self.old.now) self.old }
    {
        let x = (self.numbers.draw() % 1080) as u16;
        self.stage = Stage::Row;
        self.axis(ABS_MT_POSITION_X, i32::from(x))
    }

    /// The row of the contact's place.
    fn row(&mut self) -> RawEvent
        requires { self.now.stage ≡ Row }
        ensures { left_of self.old ≡ result ∷ left_of self.new }
    {
        let y = (self.numbers.draw() % 2400) as u16;
        self.stage = Stage::Report;
        self.axis(ABS_MT_POSITION_Y, i32::from(y))
    }

    /// Ends the packet.
    fn report(&mut self) -> RawEvent
        requires { self.now.stage ≡ Report }
        ensures { left_of self.old ≡ result ∷ left_of self.new }
    {
        self.stage = Stage::Slot;
        RawEvent {
            device: touch_device(),
            moment: self.at,
            kind: EV_SYN,
            code: SYN_REPORT,
            value: 0,
        }
    }
}

impl Iterator for Events {
    type Item = RawEvent;

    ghost use Rattle.std.specs.Iterator.{YieldsFirst, item_count};
    ghost use Rattle.workload_maker.specs.Making.{left_of};

    ghost next_gives = { YieldsFirst left_of };

    ghost remaining = { item_count left_of };

    fn next(&mut self) -> Option<RawEvent> {
        match self.stage {
            Stage::Slot if self.left == 0 => None,
            Stage::Slot => Some(self.slot()),
            Stage::Contact => Some(self.contact()),
            Stage::Column => Some(self.column()),
            Stage::Row => Some(self.row()),
            Stage::Report => Some(self.report()),
        }
    }
}
