//! The events of all devices.
ghost use Rattle.std.specs.Prelude.{◌≡◌, ◌∷◌, [], ◌++◌, List, reverse, None, OnOk};
ghost use Rattle.raw_events.specs.declared.event.RawEvent.{RawEvent as Event};
ghost use Rattle.device_reader.specs.Cooked.{DevicePlan};
ghost use Rattle.device_reader.specs.CookedList.{ReadersStandFor, added};
ghost use Rattle.recording_counts.specs.Devices.{AllCounted};
ghost use Rattle.recording_counts.specs.Counted.{counted};
ghost use Rattle.recording_counts.specs.EventTally.{EventTallyStandsFor};
ghost use Rattle.recording_counts.specs.Moments.{back_events, span_of};

use crate::device::DeviceTally;
use crate::moments::{Span, is_below, widened};
use crate::number::risen_if;
use device_reader::Readers;
use input_types::Args;
use raw_events::RawEvent;
use std::alloc::{AllocError, Global};
use std::marker::Model;

/// Counts the events of a recording, one by one, beside the readers of its devices. Its memory depends on the devices
/// alone, whatever comes.
///
/// Contracts see the readers, the counts of each device in the order of their numbers, the earliest and the latest time
/// of the events, how many there are, and at how many of them the clock went back.
#[derive(Drop)]
pub struct EventTally {
    readers: Readers,
    devices: Vec<DeviceTally>,
    span: Option<Span>,
    events: u64,
    /// How many events have a time below that of some event before them.
    back: u64,
    /// The args of an event.
    args: Vec<Args>,
}

impl Model for EventTally {
    ghost use Rattle.recording_counts.specs.EventTally.{EventsState};

    ghost Value = { EventsState };

    ghost view = { λ t. record {
      readers = t.readers;
      devices = t.devices.items;
      span = t.span;
      events = t.events;
      back = t.back;
    } };
}

impl EventTally {
    /// The devices before their first event, in the order of their numbers.
    pub fn new(alloc: Global, readers: Readers, devices: Vec<DeviceTally>) -> EventTally
        ensures { (plans : List DevicePlan) → ReadersStandFor plans [] readers → AllCounted plans [] devices.items
            → EventTallyStandsFor plans [] result }
    {
        EventTally {
            readers,
            devices,
            span: None,
            events: 0,
            back: 0,
            args: Vec::new(alloc),
        }
    }

    /// Takes the next event of the recording.
    pub fn take(&mut self, event: RawEvent) -> Result<(), AllocError>
        ensures { (plans : List DevicePlan) (past : List Event) → EventTallyStandsFor plans past self.old
            → OnOk result (EventTallyStandsFor plans (event ∷ past) self.new) }
    {
        self.args.clear();
        self.readers.take(event, &mut self.args)?;
        self.back = back_with(self.back, self.span, &event);
        self.span = widened(self.span, event.moment);
        self.events = self.events.saturating_add(1);
        take_any(&mut self.devices, &event, &self.args)
    }

    /// Takes the next events of the recording, in their order.
    pub fn take_all(&mut self, events: &[RawEvent]) -> Result<(), AllocError>
        ensures { (plans : List DevicePlan) (past : List Event) → EventTallyStandsFor plans past self.old
            → OnOk result (EventTallyStandsFor plans (reverse events.now ++ past) self.new) }
    {
        for event in events {
            self.take(*event)?;
        }
        Ok(())
    }

    /// The counts of each device, in the order of their numbers.
    pub fn devices(&self) -> &[DeviceTally]
        ensures { result.now ≡ self.now.devices }
    {
        &self.devices
    }

    /// The earliest and the latest time of the events; None exactly if there is no event.
    pub fn span(&self) -> Option<Span>
        ensures value { result ≡ self.now.span }
        ensures none { (plans : List DevicePlan) → EventTallyStandsFor plans [] self.now → result ≡ None }
    {
        self.span
    }

    /// How many events there are.
    pub fn events(&self) -> u64
        ensures { result ≡ self.now.events }
    {
        self.events
    }

    /// How many events have a time below that of some event before them.
    pub fn clock_back(&self) -> u64
        ensures { result ≡ self.now.back }
    {
        self.back
    }
}

/// How many events have a time below that of some event before them, counting the next event.
fn back_with(back: u64, span: Option<Span>, event: &RawEvent) -> u64
    ensures { (past : List Event) → span ≡ span_of past → back ≡ counted (back_events past)
        → result ≡ counted (back_events (event.now ∷ past)) }
{
    risen_if(back, is_below(span, event.moment))
}

/// Takes the next event into the counts of its device. An event of a device without counts is skipped.
fn take_any(devices: &mut [DeviceTally], event: &RawEvent, args: &[Args]) -> Result<(), AllocError>
    ensures { (plans : List DevicePlan) (past : List Event) → args.now ≡ added plans past event.now
        → AllCounted plans past devices.old → OnOk result (AllCounted plans (event.now ∷ past) devices.new) }
{
    let i = usize::from(event.device.get() - 1);
    if i < devices.len() {
        devices[i].take(event, args)
    } else {
        Ok(())
    }
}
