//! Which display each device belongs to.
ghost use Rattle.std.specs.Prelude.{◌≡◌, ◌-◌, replicate, slice_set};
ghost use Rattle.input_types.specs.Displays.{device_display};

use crate::number::{DeviceId, DisplayId};
use std::marker::Model;

/// The display of each device, 1 to 8. Contracts see it as the list of these eight displays.
#[derive(Clone, Copy, Debug, PartialEq, Eq)]
pub struct Displays {
    of_device: [DisplayId; 8],
}

impl Model for Displays {
    ghost use Rattle.std.specs.Prelude.{ℕ, List, ◌≡◌, length};

    ghost Value = { List ℕ };

    ghost view = { λ d. d.of_device };

    ghost invariant = { λ d. length d.of_device ≡ 8 };

    ghost inverse = { λ displays. record { of_device = displays } };
}

impl Displays {
    /// Display 0 for each device.
    pub fn new() -> Displays
        ensures { result ≡ replicate 8 0 }
    {
        Displays {
            of_device: [DisplayId::zero(); 8],
        }
    }

    /// Sets the display of a device; the others keep theirs.
    pub fn set(&mut self, device: DeviceId, display: DisplayId)
        ensures after { self.new ≡ slice_set self.old (device - 1) display }
    {
        self.of_device[usize::from(device.get()) - 1] = display;
    }

    /// The display of a device.
    pub fn of(&self, device: DeviceId) -> DisplayId
        ensures { result ≡ device_display self.now device }
    {
        self.of_device[usize::from(device.get()) - 1]
    }
}
