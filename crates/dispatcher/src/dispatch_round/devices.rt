//! The devices.
ghost use Rattle.std.specs.Prelude.{◌≡◌, ◌<◌, ◌+◌};

use input_types::DeviceId;

/// The device at a place of a row that begins with device 1.
pub(crate) fn device_at(place: u8) -> DeviceId
    requires { place < 8 }
    ensures { result ≡ place + 1 }
{
    match DeviceId::new(place + 1) {
        Some(device) => device,
        None => unreachable!(),
    }
}
