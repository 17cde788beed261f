//! What the rules see before a turn.
ghost use Rattle.std.specs.Prelude.{◌≡◌, ◌≤◌, length};
ghost use Rattle.route_plain.specs.State.{last_of, reach_of};

use crate::hold::{Hold, Pilferer};
use input_types::{DeviceId, DisplayId, Pointers};
use window_snapshot::{Reach, Snapshot};

/// What the rules see before a turn.
#[derive(Clone, Copy)]
pub(crate) struct Seen<'a> {
    pub(crate) snapshot: &'a Snapshot,
    pub(crate) live: u64,
    pub(crate) able: u64,
    pub(crate) holds: &'a [Hold],
    pub(crate) pilferers: &'a [Pilferer],
    pub(crate) last: &'a [Pointers],
}

/// What each device reaches: the live channels, and the walls of display 0.
pub(crate) fn reach_of(seen: &Seen) -> Reach
    ensures { result ≡ reach_of seen.now.live }
{
    Reach {
        channels: seen.live,
        display: DisplayId::zero(),
    }
}

/// The last places of a device.
pub(crate) fn last_of<'a>(last: &'a [Pointers], device: DeviceId) -> &'a Pointers
    requires { length last.now ≡ 8 }
    ensures value { result.now ≡ last_of last.now device }
    ensures range { (1 ≤ device) × (device ≤ 8) }
{
    &last[usize::from(device.get()) - 1]
}
