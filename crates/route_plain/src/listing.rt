//! Lists of pointers, and motions that list them.
ghost use Rattle.std.specs.Prelude.{◌≡◌, ◌<◌, ◌==◌, ◌++◌, [], ◌∷◌, if◌then◌else◌, length};
ghost use Rattle.bits32.specs.Set.{is_in};
ghost use Rattle.input_types.specs.Gestures.{flag_canceled};
ghost use Rattle.input_types.specs.Pointers.{EndsBelow};
ghost use Rattle.routing_rules.specs.Outgoing.{listing, index_in, plain, opening, closing, is_up, is_cancelled};

use crate::hold::has_id;
use bits32::Bits32;
use input_types::{
    DeviceId, FLAG_CANCELED, Motion, MotionAction, Pointer, PointerId, Pointers, PushRefused,
};

/// Appends a pointer to a list.
fn put(list: &mut Pointers, pointer: Pointer)
    requires room { length list.old < 16 }
    requires rises { EndsBelow list.old pointer.id }
    ensures { list.new ≡ list.old ++ pointer ∷ [] }
{
    match list.push(pointer) {
        Ok(()) => {}
        Err(PushRefused::Full) => unreachable!(),
        Err(PushRefused::NotRising) => unreachable!(),
    }
}

/// The list of one pointer.
pub(crate) fn single(pointer: Pointer) -> Pointers
    ensures { result ≡ pointer ∷ [] }
{
    let mut list = Pointers::empty();
    put(&mut list, pointer);
    list
}

/// The pointers whose ids are in the set.
pub(crate) fn listing(set: Bits32, pointers: &Pointers) -> Pointers
    ensures { result ≡ listing (λ i. is_in i set) pointers.now }
{
    let mut listed = Pointers::empty();
    for pointer in pointers.as_slice() {
        if has_id(set, pointer.id) {
            put(&mut listed, *pointer);
        }
    }
    listed
}

/// The place of an id in the list.
fn index_in(pointers: &Pointers, id: PointerId) -> u8
    ensures { result ≡ index_in id pointers.now }
{
    let count = pointers.len();
    for (place, pointer) in pointers.as_slice().iter().enumerate() {
        if pointer.id.get() == id.get() {
            return place as u8;
        }
    }
    count as u8
}

/// A motion about no pointer of its own.
pub(crate) fn plain(device: DeviceId, action: MotionAction, pointers: &Pointers) -> Motion
    ensures { result ≡ plain device action pointers.now }
{
    Motion {
        device,
        action,
        index: 0,
        flags: 0,
        pointers: *pointers,
    }
}

/// A motion about the pointer with this id.
pub(crate) fn about(
    device: DeviceId,
    action: MotionAction,
    id: PointerId,
    flags: u32,
    pointers: &Pointers,
) -> Motion
    ensures { result
        ≡ record {
          device = device;
          action = action;
          index = index_in id pointers.now;
          flags = flags;
          pointers = pointers.now;
        } }
{
    Motion {
        device,
        action,
        index: index_in(pointers, id),
        flags,
        pointers: *pointers,
    }
}

/// A pointer goes down in a window that then holds these.
pub(crate) fn opening(device: DeviceId, id: PointerId, pointers: &Pointers) -> Motion
    ensures { result ≡ opening device id pointers.now }
{
    match pointers.as_slice() {
        [_] => plain(device, MotionAction::Down, pointers),
        _ => about(device, MotionAction::PointerDown, id, 0, pointers),
    }
}

/// A pointer goes up in a window that held these.
pub(crate) fn closing(
    device: DeviceId,
    id: PointerId,
    cancelled: bool,
    pointers: &Pointers,
) -> Motion
    ensures { result ≡ closing device id cancelled pointers.now }
{
    match pointers.as_slice() {
        [_] => plain(device, last_up(cancelled), pointers),
        _ => about(
            device,
            MotionAction::PointerUp,
            id,
            up_flags(cancelled),
            pointers,
        ),
    }
}

/// The action with which the last pointer of a window goes up.
fn last_up(cancelled: bool) -> MotionAction
    ensures { result ≡ (if cancelled then MotionAction.Cancel else MotionAction.Up) }
{
    if cancelled {
        MotionAction::Cancel
    } else {
        MotionAction::Up
    }
}

/// The flags with which one of several pointers goes up.
fn up_flags(cancelled: bool) -> u32
    ensures { result ≡ (if cancelled then flag_canceled else 0) }
{
    if cancelled { FLAG_CANCELED } else { 0 }
}

/// Whether a pointer goes up with the action.
pub(crate) fn is_up(action: MotionAction) -> bool
    ensures { result ≡ is_up action }
{
    match action {
        MotionAction::Up | MotionAction::PointerUp | MotionAction::Cancel => true,
        _ => false,
    }
}

/// Whether a motion with this action and these flags cancels what goes up with it.
pub(crate) fn is_cancelled(action: MotionAction, flags: u32) -> bool
    ensures { result ≡ is_cancelled action flags }
{
    match action {
        MotionAction::Cancel => true,
        _ => flags == FLAG_CANCELED,
    }
}
