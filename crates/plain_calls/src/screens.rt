//! Which display each device is on, as C says it.
ghost use Rattle.std.specs.Prelude.{◌≡◌, ◌<◌, nat_le, slice_set, true};
ghost use Rattle.std.specs.List.{list_all};
ghost use Rattle.plain_calls.specs.Screens.{displays_of};

use input_types::{DeviceId, DisplayId, Displays};

/// The display of each device number: `struct inputflinger_displays`. It starts with device 1.
#[repr(C)]
#[derive(Clone, Copy, Debug)]
pub struct PlainDisplays {
    /// Each 0 to 3.
    pub of_device: [u8; 8],
}

impl PlainDisplays {
    /// The displays; None if a number is no display's.
    pub fn read(&self) -> Option<Displays>
        ensures { result ≡ displays_of self.now }
    {
        if !are_displays(&self.of_device) {
            return None;
        }
        Some(displays(&self.of_device))
    }
}

/// Whether all of these are numbers of displays.
fn are_displays(numbers: &[u8]) -> bool
    ensures { result ≡ list_all (λ y. nat_le y 3) numbers.now }
{
    numbers.iter().all(|number| *number <= DisplayId::MAX)
}

/// The displays of these numbers.
fn displays(numbers: &[u8; 8]) -> Displays
    requires { list_all (λ y. nat_le y 3) numbers.now ≡ true }
    ensures { result ≡ numbers.now }
{
    let mut displays = Displays::new();
    for (i, number) in numbers.iter().enumerate() {
        put(&mut displays, i, *number);
    }
    displays
}

/// Gives the device at an index, from 0, the display with this number.
fn put(displays: &mut Displays, place: usize, number: u8)
    requires place { place < 8 }
    requires number { nat_le number 3 ≡ true }
    ensures { displays.new ≡ slice_set displays.old place number }
{
    let device = DeviceId::new(place as u8 + 1).unwrap();
    let display = DisplayId::new(number).unwrap();
    displays.set(device, display);
}
