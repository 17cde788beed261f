//! What is counted of a device with keys.
ghost use Rattle.std.specs.Prelude.{◌≡◌, ◌∷◌, [], ◌++◌, ℕ, List, OnOk, reverse};
ghost use Rattle.std.specs.BTreeSet.{contains};
ghost use Rattle.std.specs.Ordering.{nat_cmp};
ghost use Rattle.input_types.specs.declared.message.Args.{Args as ArgsView};
ghost use Rattle.raw_events.specs.declared.event.RawEvent.{RawEvent as Event};
ghost use Rattle.raw_events.specs.Packets.{is_void};
ghost use Rattle.key_mapper.specs.Key.{KeyEvent, is_down};
ghost use Rattle.device_reader.specs.Cooked.{DevicePlan, args_of, device_args};
ghost use Rattle.device_reader.specs.Packets.{key_event};
ghost use Rattle.recording_counts.specs.Events.{event_counts, is_keys_used as keys_used};
ghost use Rattle.recording_counts.specs.KeyTally.{KeysTallyStandsFor, goes_down, is_down_at, is_unnamed, key_counts};

use crate::events::{EventCounts, is_keys_used};
use crate::number::risen_if;
use device_reader::is_drop;
use device_reader::slot_accumulator::is_report;
use input_types::Args;
use raw_events::RawEvent;
use raw_events::codes::EV_KEY;
use std::alloc::{AllocError, Global};
use std::collections::BTreeSet;

/// How many keys went down, and how many of them have no key code (code 0).
#[derive(Clone, Copy, Debug, PartialEq, Eq)]
pub struct KeyCounts {
    pub downs: u64,
    pub unnamed: u64,
}

impl KeyCounts {
    fn new() -> KeyCounts
        ensures { result ≡ key_counts [] }
    {
        KeyCounts {
            downs: 0,
            unnamed: 0,
        }
    }

    /// Takes the next args of the device.
    fn take(&mut self, args: &Args)
        ensures { (before : List ArgsView) → self.old ≡ key_counts before → self.new ≡ key_counts (args.now ∷ before) }
    {
        self.downs = risen_if(self.downs, goes_down(args));
        self.unnamed = risen_if(self.unnamed, is_unnamed(args));
    }

    /// Takes all that an event gave, in its order.
    fn take_all(&mut self, args: &[Args])
        ensures { (before : List ArgsView) → self.old ≡ key_counts before
            → self.new ≡ key_counts (reverse args.now ++ before) }
    {
        for a in args {
            self.take(a);
        }
    }
}

/// Whether args are those of a key that goes down.
fn goes_down(args: &Args) -> bool
    ensures { result ≡ goes_down args.now }
{
    match args {
        Args::Key(key) => key.down,
        _ => false,
    }
}

/// Whether args are those of a key without a key code that goes down.
fn is_unnamed(args: &Args) -> bool
    ensures { result ≡ is_unnamed args.now }
{
    match args {
        Args::Key(key) => key.down && key.code == 0,
        _ => false,
    }
}

/// The counts of one device with keys. Its memory is that of the keys that are down, at most 65,536.
#[derive(Drop)]
pub struct KeysTally {
    void: bool,
    down: BTreeSet<u16>,
    events: EventCounts,
    counts: KeyCounts,
}

impl KeysTally {
    /// A device with keys before its first event.
    pub fn new(alloc: Global) -> KeysTally
        ensures { (plan : DevicePlan) → KeysTallyStandsFor plan [] result }
    {
        KeysTally {
            void: false,
            down: BTreeSet::new(alloc),
            events: EventCounts::new(),
            counts: KeyCounts::new(),
        }
    }

    /// Takes the next event of the device, and the args that its reader gave for it.
    pub fn take(&mut self, event: &RawEvent, args: &[Args]) -> Result<(), AllocError>
        ensures { (plan : DevicePlan) (past : List Event) → args.now ≡ args_of plan past event.now
            → KeysTallyStandsFor plan past self.old
            → OnOk result (KeysTallyStandsFor plan (event.now ∷ past) self.new) }
    {
        self.events.take(event, is_keys_used(event), self.void);
        self.counts.take_all(args);
        track(&mut self.void, &mut self.down, event)
    }

    /// What is counted of the events of every device.
    pub fn events(&self) -> &EventCounts
        ensures { (plan : DevicePlan) (past : List Event) → KeysTallyStandsFor plan past self.now
            → result.now ≡ event_counts keys_used past }
    {
        &self.events
    }

    /// What only devices with keys count.
    pub fn counts(&self) -> &KeyCounts
        ensures { (plan : DevicePlan) (past : List Event) → KeysTallyStandsFor plan past self.now
            → result.now ≡ key_counts (device_args plan past) }
    {
        &self.counts
    }

    /// Whether the key of this scan code is down.
    pub fn is_down(&self, scan: u16) -> bool
        ensures { (plan : DevicePlan) (past : List Event) → KeysTallyStandsFor plan past self.now
            → result ≡ is_down_at past scan }
    {
        self.down.contains(&scan)
    }
}

/// Keeps which keys are down, and whether what comes is void, past the next event.
fn track(void: &mut bool, down: &mut BTreeSet<u16>, event: &RawEvent) -> Result<(), AllocError>
    ensures void { (past : List Event) → void.old ≡ is_void past → OnOk result (void.new ≡ is_void (event.now ∷ past)) }
    ensures down { (past : List Event) → void.old ≡ is_void past
        → ((scan : ℕ) → contains nat_cmp down.old scan ≡ is_down_at past scan)
        → OnOk result ((scan : ℕ) → contains nat_cmp down.new scan ≡ is_down_at (event.now ∷ past) scan) }
{
    if *void {
        *void = !is_report(event);
        return Ok(());
    }
    if is_drop(event) {
        *void = true;
        down.clear();
        return Ok(());
    }
    if event.kind != EV_KEY {
        return Ok(());
    }
    move_key(down, event)
}

/// Keeps which keys are down past the next key event.
fn move_key(down: &mut BTreeSet<u16>, event: &RawEvent) -> Result<(), AllocError>
    ensures { (past : List KeyEvent) → ((s : ℕ) → contains nat_cmp down.old s ≡ is_down s past)
        → OnOk result ((s : ℕ) → contains nat_cmp down.new s ≡ is_down s (key_event event.now ∷ past)) }
{
    match event.value {
        1 => {
            down.insert(event.code)?;
        }
        0 => {
            down.remove(&event.code);
        }
        _ => {}
    }
    Ok(())
}
