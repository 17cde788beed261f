//! Devices that come and go.
ghost use Rattle.std.specs.Prelude.{◌≡◌, ◌≤◌, ◌-◌, ℕ, true, false, List, [], ◌∷◌, None, Err, IfOk, OnErr, slice_set};
ghost use Rattle.dispatch_history.specs.Effect.{Effect};
ghost use Rattle.input_types.specs.declared.message.Args.TheVariants.{Reset};
ghost use Rattle.device_reader.specs.Cooked.{Touches, Keys};
ghost use Rattle.device_table.specs.Table.{is_there, reader_of};
ghost use Rattle.live_input.specs.Answers.{SameSeats};
ghost use Rattle.live_input.specs.Slots.{none_down};
ghost use Rattle.live_input.specs.Giving.{Gives};
ghost use Rattle.live_input.specs.Plugging.{Adds, is_slots};
ghost use Rattle.live_input.specs.Standing.{LiveIs};
ghost use Rattle.live_input.specs.State.{latest};

use crate::live::Live;
use crate::refused::{AddRefused, ArgsRefused};
use crate::slots::{Fingers, set_fingers};
use device_reader::touch_mapper::Cook;
use input_types::{Args, DeviceId, DisplayId, Moment};
use key_layout::Layout;

impl Live {
    /// Plugs in a touch device on a display, with 1 to 16 slots; `cook` turns its positions into pixels. It gets the
    /// lowest free number of its display.
    ///
    /// If fingers are already down on it, hand them in as events, as after a SYN_DROPPED.
    pub fn add_touch(
        &mut self,
        display: DisplayId,
        slots: u8,
        cook: Cook,
    ) -> Result<DeviceId, AddRefused>
        ensures slots { is_slots slots ≡ false → result ≡ Err AddRefused.BadSlots }
        ensures added { is_slots slots ≡ true
            → Adds (λ d. Touches (record { device = d; slots = slots; cook = cook })) display result self.old self.new }
        ensures rest { self.new ≡ record self.old { devices = self.new.devices; fingers = self.new.fingers } }
        ensures fingers { IfOk result (λ d. self.new.fingers ≡ slice_set self.old.fingers (d - 1) (none_down slots)) }
        ensures others { (d : ℕ) → 1 ≤ d → is_there self.old.devices d ≡ true
            → reader_of self.new.devices d ≡ reader_of self.old.devices d }
        ensures stands { (ds : List ℕ) (es : List Effect) → LiveIs ds es self.old → LiveIs ds es self.new }
        ensures err { OnErr result (self.new ≡ self.old) }
    {
        if !is_slots(slots) {
            return Err(AddRefused::BadSlots);
        }
        let Some(device) = self.devices.first_free(self.dispatcher.displays(), display) else {
            return Err(AddRefused::TooMany);
        };
        self.devices.add_touch(device, slots, cook);
        set_fingers(&mut self.fingers, device, Fingers::new(slots));
        Ok(device)
    }

    /// Plugs in a device with keys on a display; its layout gives the key code of each scan code. It gets the lowest
    /// free number of its display, and its keys go where all keys go.
    pub fn add_keys(&mut self, display: DisplayId, layout: Layout) -> Result<DeviceId, AddRefused>
        ensures added { Adds (λ d. Keys (record { device = d; layout = layout })) display result self.old self.new }
        ensures rest { self.new ≡ record self.old { devices = self.new.devices; fingers = self.new.fingers } }
        ensures fingers { IfOk result (λ d. self.new.fingers ≡ slice_set self.old.fingers (d - 1) (none_down 0)) }
        ensures others { (d : ℕ) → 1 ≤ d → is_there self.old.devices d ≡ true
            → reader_of self.new.devices d ≡ reader_of self.old.devices d }
        ensures stands { (ds : List ℕ) (es : List Effect) → LiveIs ds es self.old → LiveIs ds es self.new }
        ensures err { OnErr result (self.new ≡ self.old) }
    {
        let Some(device) = self.devices.first_free(self.dispatcher.displays(), display) else {
            return Err(AddRefused::TooMany);
        };
        self.devices.add_keys(self.alloc, device, layout);
        set_fingers(&mut self.fingers, device, Fingers::new(0));
        Ok(device)
    }

    /// Unplugs a device. Its pointers and keys are cancelled as by a reset, and its number is free again.
    pub fn remove_device(&mut self, now: Moment, device: DeviceId) -> Result<(), ArgsRefused>
        ensures none { is_there self.old.devices device ≡ false
            → (result ≡ Err ArgsRefused.NoDevice) × (self.new ≡ self.old) }
        ensures after { (ds : List ℕ) (es : List Effect) → LiveIs ds es self.old
            → is_there self.old.devices device ≡ true
            → Gives ds (latest now self.old) es (Reset device ∷ [])
            (self.new.devices ≡ slice_set self.old.devices (device - 1) None) result self.old self.new }
        ensures seats { SameSeats self.old self.new }
        ensures named { self.new.reported ≡ self.old.reported }
    {
        if !self.devices.is_there(device) {
            return Err(ArgsRefused::NoDevice);
        }
        let now = now.later(self.clock);
        match self.pending.push(Args::Reset(device)) {
            Ok(()) => {
                self.clock = now;
                self.devices.remove(device);
                self.deliver(now)
            }
            Err(_) => Err(ArgsRefused::Memory),
        }
    }
}

/// Whether a touch device can have this many slots.
fn is_slots(slots: u8) -> bool
    ensures { result ≡ is_slots slots }
{
    1 <= slots && slots <= 16
}
