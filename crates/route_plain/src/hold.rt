//! Who holds what.
ghost use Rattle.std.specs.Prelude.{◌≡◌, ◌==◌, ◌&&◌};
ghost use Rattle.std.specs.List.{list_any};
ghost use Rattle.bits32.specs.Set.{is_in, marked};
ghost use Rattle.routing_rules.specs.Pairs.{has, has_any};
ghost use Rattle.route_plain.specs.Holds.{pairs_of, is_of, began, is_earlier, is_pilfering, ids_with, channels_with};

use bits32::Bits32;
use input_types::{DeviceId, PointerId};
use window_snapshot::mask_with;

/// A window that holds a pointer of a device: it was given the pointer's down, and is sent its motions until it goes
/// up or is taken.
#[derive(Clone, Copy, Debug, PartialEq, Eq)]
pub struct Hold {
    /// The window, by the number of its channel.
    pub window: u32,
    pub device: DeviceId,
    pub id: PointerId,
    /// The number of the turn at which the window began to hold something of the device; it has held something of it
    /// since.
    pub since: u64,
}

/// A window that pilfered the pointers of a device and still holds one of them.
#[derive(Clone, Copy, Debug, PartialEq, Eq)]
pub struct Pilferer {
    /// The window, by the number of its channel.
    pub window: u32,
    pub device: DeviceId,
}

/// Whether the set has the id.
pub(crate) fn has_id(set: Bits32, id: PointerId) -> bool
    ensures { result ≡ is_in id set }
{
    set.has(id.get())
}

/// The set with the id.
pub(crate) fn with_id(set: Bits32, id: PointerId) -> Bits32
    ensures { result ≡ marked id set }
{
    let mut more = set;
    more.mark(id.get());
    more
}

/// Whether it is a hold of the window on the device.
pub(crate) fn is_of(hold: &Hold, window: u32, device: DeviceId) -> bool
    ensures { result ≡ is_of window device hold.now }
{
    hold.window == window && hold.device.get() == device.get()
}

/// The set with the ids of the window's holds on the device.
pub(crate) fn ids_with(set: Bits32, holds: &[Hold], window: u32, device: DeviceId) -> Bits32
    ensures { result ≡ ids_with set holds.now window device }
{
    holds
        .iter()
        .filter(|hold| is_of(hold, window, device))
        .fold(set, |ids, hold| with_id(ids, hold.id))
}

/// The mask with the windows of the holds added.
pub(crate) fn channels_with(mask: u64, holds: &[Hold]) -> u64
    ensures { result ≡ channels_with mask holds.now }
{
    holds
        .iter()
        .fold(mask, |channels, hold| mask_with(channels, hold.window))
}

/// Whether one of them is a hold of the window on the device.
fn any_is_of(holds: &[Hold], window: u32, device: DeviceId) -> bool
    ensures { result ≡ list_any (is_of window device) holds.now }
{
    holds.iter().any(|hold| is_of(hold, window, device))
}

/// Whether the window holds something of the device.
#[tactic(auto, using(crate::proofs::Holding::any_of_pairs))]
pub(crate) fn holds_any(holds: &[Hold], window: u32, device: DeviceId) -> bool
    ensures { result ≡ has_any (pairs_of holds.now) window device }
{
    any_is_of(holds, window, device)
}

/// The number of the turn at which the window began to hold something of the device.
pub(crate) fn began(holds: &[Hold], window: u32, device: DeviceId) -> Option<u64>
    ensures { result ≡ began holds.now window device }
{
    match holds.iter().find(|hold| is_of(hold, window, device)) {
        Some(hold) => Some(hold.since),
        None => None,
    }
}

/// Whether window `v` began before window `w`, of two that hold something of the device.
pub(crate) fn is_earlier(holds: &[Hold], v: u32, w: u32, device: DeviceId) -> bool
    ensures { result ≡ is_earlier holds.now v w device }
{
    match (began(holds, v, device), began(holds, w, device)) {
        (Some(first), Some(second)) => first < second,
        _ => false,
    }
}

/// Whether the window is pilfering the device.
pub(crate) fn is_pilfering(pilferers: &[Pilferer], window: u32, device: DeviceId) -> bool
    ensures { result ≡ is_pilfering pilferers.now window device }
{
    pilferers.iter().any(|pilferer| pilferer.window == window
        && pilferer.device.get() == device.get())
}

/// Whether one of them is the window's hold of the pointer.
fn any_is_pointer(holds: &[Hold], window: u32, device: DeviceId, id: PointerId) -> bool
    ensures { result ≡ list_any (λ h. is_of window device h && h.id == id) holds.now }
{
    holds.iter().any(|hold| is_of(hold, window, device) && hold.id.get() == id.get())
}

/// Whether the window holds the pointer.
pub(crate) fn holds_pointer(holds: &[Hold], window: u32, device: DeviceId, id: PointerId) -> bool
    ensures { result ≡ has (pairs_of holds.now) window device id }
{
    any_is_pointer(holds, window, device, id)
}
