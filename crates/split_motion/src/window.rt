//! What a window is sent for a motion of its device.
ghost use Rattle.std.specs.Prelude.{◌≡◌};
ghost use Rattle.bits32.specs.Set.{is_in};
ghost use Rattle.routing_rules.specs.Given.{changed};
ghost use Rattle.routing_rules.specs.Outgoing.{opening, closing, is_up, is_down, is_cancelled};
ghost use Rattle.split_motion.specs.Split.{part_about, split_of};

use crate::listed::{about, part, plain};
use bits32::Bits32;
use input_types::{DeviceId, FLAG_CANCELED, Motion, MotionAction, Pointer, PointerId, Pointers};

/// The motion for a window that holds these ids, after a pointer is given and before one goes up. None exactly if it
/// holds none of the motion's pointers.
pub fn split(motion: &Motion, held: Bits32) -> Option<Motion>
    ensures { result ≡ split_of motion.now (λ i. is_in i held) }
{
    let pointers = part(&motion.pointers, held);
    if pointers.is_empty() {
        return None;
    }
    Some(part_about(motion, held, pointers))
}

/// The same for a window with these pointers of the motion.
fn part_about(motion: &Motion, held: Bits32, pointers: Pointers) -> Motion
    ensures { result ≡ part_about motion.now (changed motion.now) (λ i. is_in i held) pointers }
{
    let Some(pointer) = changed(motion) else {
        return plain(motion.device, MotionAction::Move, pointers);
    };
    let id = pointer.id;
    if !held.has(id.get()) {
        return plain(motion.device, MotionAction::Move, pointers);
    }
    if is_down(motion.action) {
        opening(motion.device, id, pointers)
    } else if is_up(motion.action) {
        let cancelled = is_cancelled(motion.action, motion.flags);
        closing(motion.device, id, cancelled, pointers)
    } else {
        plain(motion.device, MotionAction::Move, pointers)
    }
}

/// The pointer that goes down or up with a motion, or the first one of a move.
fn changed(motion: &Motion) -> Option<Pointer>
    ensures { result ≡ changed motion.now }
{
    motion.pointers.get(usize::from(motion.index))
}

/// A pointer goes down in a window that then holds these.
fn opening(device: DeviceId, id: PointerId, pointers: Pointers) -> Motion
    ensures { result ≡ opening device id pointers }
{
    match pointers.as_slice() {
        [_] => plain(device, MotionAction::Down, pointers),
        _ => about(device, MotionAction::PointerDown, id, 0, pointers),
    }
}

/// A pointer goes up, or is cancelled, in a window that held these.
fn closing(device: DeviceId, id: PointerId, cancelled: bool, pointers: Pointers) -> Motion
    ensures { result ≡ closing device id cancelled pointers }
{
    match pointers.as_slice() {
        [_] => {
            let action = if cancelled {
                MotionAction::Cancel
            } else {
                MotionAction::Up
            };
            plain(device, action, pointers)
        }
        _ => {
            let flags = if cancelled { FLAG_CANCELED } else { 0 };
            about(device, MotionAction::PointerUp, id, flags, pointers)
        }
    }
}

/// Whether a pointer goes up with the action.
pub fn is_up(action: MotionAction) -> bool
    ensures { result ≡ is_up action }
{
    match action {
        MotionAction::Up | MotionAction::PointerUp | MotionAction::Cancel => true,
        _ => false,
    }
}

/// Whether a pointer goes down with the action.
fn is_down(action: MotionAction) -> bool
    ensures { result ≡ is_down action }
{
    match action {
        MotionAction::Down | MotionAction::PointerDown => true,
        _ => false,
    }
}

/// Whether a motion cancels what goes up with it.
fn is_cancelled(action: MotionAction, flags: u32) -> bool
    ensures { result ≡ is_cancelled action flags }
{
    match action {
        MotionAction::Cancel => true,
        _ => flags == FLAG_CANCELED,
    }
}
