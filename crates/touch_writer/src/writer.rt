//! A writer of packets.
ghost use Rattle.std.specs.Prelude.{◌≡◌, ◌+◌, ◌<◌, ◌≤◌, List, Bool, ◌++◌, replicate, OnOk, OnErr};
ghost use Rattle.touch_writer.specs.Places.{IsRising, vacant};
ghost use Rattle.touch_writer.specs.State.{IsBestChoice, packet_of, after};
ghost use Rattle.touch_writer.specs.Refusal.{Answers, refusal};

use crate::assignable::{new_contacts, unassignable};
use crate::error::WriteError;
use crate::packet::packet;
use crate::place::{Place, empty_place};
use crate::table::{Case, choose, placed};
use crate::want::Want;
use input_types::{DeviceId, Moment};
use raw_events::RawEvent;
use std::marker::Model;

/// Writes the packets of one device.
///
/// Contracts see the device, the current slot, what each of its slots holds, and how many tracking ids were used.
#[derive(Drop)]
pub struct Writer {
    rows: [Place; 16],
    device: DeviceId,
    used: u32,
    slots: u8,
    current: u8,
}

impl Model for Writer {
    ghost use Rattle.std.specs.Prelude.{take};
    ghost use Rattle.touch_writer.specs.State.{State, IsWriter};

    ghost Value = { State };

    ghost view = { λ w. record {
      device = w.device;
      current = w.current;
      places = take w.slots w.rows;
      used = w.used;
    } };

    ghost invariant = { λ w. IsWriter w.rows w.slots w.current w.used };
}

impl Writer {
    /// A writer of a device with this many slots, all without a contact; slot 0 is the current one.
    pub fn new(device: DeviceId, slots: u8) -> Writer
        requires { (1 ≤ slots) × (slots ≤ 16) }
        ensures { result ≡ record { device = device; current = 0; places = replicate slots vacant; used = 0 } }
    {
        Writer {
            rows: [empty_place(); 16],
            device,
            used: 0,
            slots,
            current: 0,
        }
    }

    /// Appends the packet that leads to the wanted contacts, whose ids rise.
    ///
    /// An id that a slot holds is that of the contact there, which stays in its slot. The new contacts come into
    /// slots that hold no such contact, in rising id, and get the next tracking ids. Of all choices of slots, this
    /// one has a packet with the fewest events, and among those the least list of slots. After an `Err` the writer
    /// and the list of events are as before.
    pub fn packet(
        &mut self,
        moment: Moment,
        want: &[Want],
        out: &mut Vec<RawEvent>,
    ) -> Result<(), WriteError>
        requires { IsRising want.now }
        ensures answer { Answers result (refusal self.old want.now) }
        ensures packet { OnOk result ((choice : List Bool) × IsBestChoice self.old moment want.now choice
            × (out.new.items ≡ out.old.items ++ packet_of self.old moment want.now choice)
            × (self.new ≡ after self.old want.now choice)) }
        ensures err { OnErr result ((self.new ≡ self.old) × (out.new.items ≡ out.old.items)) }
    {
        let places = &self.rows[..usize::from(self.slots)];
        if want.len() > places.len() {
            return Err(WriteError::TooMany);
        }
        let news = new_contacts(places, want);
        let count = news.as_slice().len();
        if let Some(id) = unassignable(places, count, want) {
            return Err(WriteError::NotAssignable { id });
        }
        if count as u32 > Self::MOST_TRACKING_IDS - self.used {
            return Err(WriteError::Spent);
        }
        let case = Case {
            want,
            news: news.as_slice(),
            next: self.used,
            current: usize::from(self.current),
        };
        let rows = placed(&case, places, choose(&case, places));
        let shall = &rows[..places.len()];
        let (draft, last) = packet(self.device, moment, case.current, places, shall);
        out.extend_from_slice(draft.as_slice())?;
        self.rows = rows;
        self.current = last as u8;
        self.used += count as u32;
        Ok(())
    }

    /// How many tracking ids a writer uses at most.
    const MOST_TRACKING_IDS: u32 = 2_147_483_647;
}
