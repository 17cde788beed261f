//! Some of the pointers of a motion, and motions that list them.
ghost use Rattle.std.specs.Prelude.{◌≡◌, not};
ghost use Rattle.bits32.specs.Set.{is_in};
ghost use Rattle.routing_rules.specs.Outgoing.{listing, index_in, plain};

use bits32::Bits32;
use input_types::{DeviceId, Motion, MotionAction, PointerId, Pointers};

/// The pointers whose ids are in the set, in the same order.
pub fn part(pointers: &Pointers, set: Bits32) -> Pointers
    ensures { result ≡ listing (λ i. is_in i set) pointers.now }
{
    let mut listed = Pointers::empty();
    for pointer in pointers.as_slice() {
        if set.has(pointer.id.get()) {
            listed.put(*pointer);
        }
    }
    listed
}

/// The pointers whose ids are not in the set, in the same order.
pub fn part_but(pointers: &Pointers, set: Bits32) -> Pointers
    ensures { result ≡ listing (λ i. not (is_in i set)) pointers.now }
{
    let mut listed = Pointers::empty();
    for pointer in pointers.as_slice() {
        if !set.has(pointer.id.get()) {
            listed.put(*pointer);
        }
    }
    listed
}

/// The index of an id in a list, or the length of the list if the id is not in it.
fn index_in(pointers: &Pointers, id: PointerId) -> u8
    ensures { result ≡ index_in id pointers.now }
{
    let count = pointers.len();
    for (place, pointer) in pointers.as_slice().iter().enumerate() {
        if pointer.id == id {
            return place as u8;
        }
    }
    count as u8
}

/// A motion that lists these pointers, without flags or index.
pub fn plain(device: DeviceId, action: MotionAction, pointers: Pointers) -> Motion
    ensures { result ≡ plain device action pointers }
{
    Motion {
        device,
        action,
        index: 0,
        flags: 0,
        pointers,
    }
}

/// A motion that lists these pointers, about the one with this id.
pub fn about(
    device: DeviceId,
    action: MotionAction,
    id: PointerId,
    flags: u32,
    pointers: Pointers,
) -> Motion
    ensures { result ≡
        record { device = device; action = action; index = index_in id pointers; flags = flags; pointers = pointers } }
{
    let index = index_in(&pointers, id);
    Motion {
        device,
        action,
        index,
        flags,
        pointers,
    }
}
