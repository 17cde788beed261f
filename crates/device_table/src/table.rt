//! The readers of the devices that are plugged in.
ghost use Rattle.std.specs.Prelude.{◌≡◌, ◌==◌, ◌-◌, ℕ, ◌≤◌, false, List, [], ◌∷◌, ◌++◌, Option, Some, None, replicate, slice_set, OnOk, OnErr};
ghost use Rattle.raw_events.specs.declared.event.RawEvent.{RawEvent as Event};
ghost use Rattle.device_reader.specs.Cooked.{DevicePlan, Touches, Keys, args_of};
ghost use Rattle.device_reader.specs.Reading.{Reading};
ghost use Rattle.device_table.specs.Table.{StandsAt, IsFirstFree, is_free, is_there, reader_of};

use device_reader::DeviceReader;
use device_reader::touch_mapper::Cook;
use input_types::{Args, DeviceId, DisplayId, Displays};
use key_layout::Layout;
use raw_events::RawEvent;
use std::alloc::{AllocError, Global};
use std::marker::Model;

/// The readers of the devices that are plugged in, at most 8. Contracts see a list of eight, from device 1 on.
#[derive(Drop)]
pub struct DeviceTable {
    readers: [Option<DeviceReader>; 8],
}

impl Model for DeviceTable {
    ghost use Rattle.std.specs.Prelude.{List, Option};
    ghost use Rattle.device_reader.specs.Reading.{Reading};
    ghost use Rattle.device_table.specs.Table.{AreNumbered};

    ghost Value = { List (Option Reading) };

    ghost view = { λ t. t.readers };

    ghost invariant = { λ t. AreNumbered t.readers };
}

impl DeviceTable {
    /// No device is plugged in.
    pub fn new() -> DeviceTable
        ensures { result ≡ replicate 8 None }
    {
        DeviceTable {
            readers: [None, None, None, None, None, None, None, None],
        }
    }

    /// Whether a device is plugged in.
    pub fn is_there(&self, device: DeviceId) -> bool
        ensures { result ≡ is_there self.now device }
    {
        self.readers[row(device)].is_some()
    }

    /// The least number of a display that no device has; None exactly where all numbers of the display are taken.
    #[tactic(auto, using(crate::proofs::Places::none_free, crate::proofs::Places::is_first))]
    pub fn first_free(&self, displays: &Displays, display: DisplayId) -> Option<DeviceId>
        ensures { IsFirstFree displays.now self.now display result }
    {
        for place in 0..8u8 {
            let device = DeviceId::new(place + 1).unwrap();
            if self.is_free(displays, display, device) {
                return Some(device);
            }
        }
        None
    }

    /// Whether a number is one of a display, and no device has it.
    fn is_free(&self, displays: &Displays, display: DisplayId, device: DeviceId) -> bool
        ensures { result ≡ is_free displays.now self.now display device }
    {
        displays.of(device) == display && !self.is_there(device)
    }

    /// Plugs in a touch device with this number and this many slots; `cook` turns its positions into pixels. The device
    /// that had the number is gone.
    pub fn add_touch(&mut self, device: DeviceId, slots: u8, cook: Cook)
        requires { (1 ≤ slots) × (slots ≤ 16) }
        ensures reader { StandsAt (Touches (record { device = device; slots = slots; cook = cook })) []
            device self.new }
        ensures others { (d : ℕ) → 1 ≤ d → (d == device) ≡ false → reader_of self.new d ≡ reader_of self.old d }
    {
        self.readers[row(device)] = Some(DeviceReader::touch(device, slots, cook));
    }

    /// Plugs in a device with keys with this number; its layout gives the key code of each scan code. The device that
    /// had the number is gone.
    pub fn add_keys(&mut self, alloc: Global, device: DeviceId, layout: Layout)
        ensures reader { StandsAt (Keys (record { device = device; layout = layout })) [] device self.new }
        ensures others { (d : ℕ) → 1 ≤ d → (d == device) ≡ false → reader_of self.new d ≡ reader_of self.old d }
    {
        self.readers[row(device)] = Some(DeviceReader::keys(alloc, device, layout));
    }

    /// A device is unplugged. Its number is free.
    pub fn remove(&mut self, device: DeviceId)
        ensures { self.new ≡ slice_set self.old (device - 1) None }
    {
        self.readers[row(device)] = None;
    }

    /// Takes an event by the reader of its device, and adds what it gives to `args`. An event of a device that is not
    /// plugged in adds nothing. If memory runs out, the readers and `args` are as before.
    pub fn take_into(&mut self, event: RawEvent, args: &mut Vec<Args>) -> Result<(), AllocError>
        ensures ok { (plan : DevicePlan) (past : List Event) → StandsAt plan past event.device self.old
            → OnOk result (args.new.items ≡ args.old.items ++ args_of plan past event) }
        ensures after { (plan : DevicePlan) (past : List Event) → StandsAt plan past event.device self.old
            → OnOk result (StandsAt plan (event ∷ past) event.device self.new) }
        ensures others { (d : ℕ) → 1 ≤ d → (d == event.device) ≡ false
            → reader_of self.new d ≡ reader_of self.old d }
        ensures err { OnErr result (self.new ≡ self.old) }
        ensures given { OnErr result (args.new.items ≡ args.old.items) }
    {
        match &mut self.readers[row(event.device)] {
            Some(reader) => reader.take(&event, args),
            None => Ok(()),
        }
    }
}

/// The place of a device in a table that begins with device 1.
fn row(device: DeviceId) -> usize
    ensures place { result ≡ device - 1 }
    ensures device { (1 ≤ device) × (device ≤ 8) }
{
    usize::from(device.get() - 1)
}
