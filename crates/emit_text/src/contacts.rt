//! The contacts that are down after a motion.
ghost use Rattle.std.specs.Prelude.{◌≡◌, ◌≤◌, ◌++◌, IfOk, OnOk, Some, None, length, map, true, if◌then◌else◌};
ghost use Rattle.std.specs.List.{remove};
ghost use Rattle.touch_writer.specs.Places.{IsRising};
ghost use Rattle.emit_text.specs.Motions.{contact, down_after, wanted_after};

use input_types::{Body, DeviceId, Motion, MotionAction, Pointer};
use std::alloc::AllocError;
use touch_writer::Want;

/// The contact that a pointer is.
fn contact(pointer: &Pointer) -> Want
    ensures { result ≡ contact pointer.now }
{
    Want {
        id: pointer.id,
        x: pointer.at.x,
        y: pointer.at.y,
    }
}

/// Adds a contact for each pointer.
fn add_contacts(want: &mut Vec<Want>, pointers: &[Pointer]) -> Result<(), AllocError>
    ensures { IfOk result (λ _. want.new.items ≡ want.old.items ++ map contact pointers.now) }
{
    for pointer in pointers {
        want.push(contact(pointer))?;
    }
    Ok(())
}

/// Takes the contact at a place away, if there is one.
fn take_away(want: &mut Vec<Want>, index: usize)
    ensures { want.new.items ≡ remove want.old.items index }
{
    if index < want.len() {
        want.remove(index);
    }
}

/// Lists the contacts that are down after a motion, with rising ids; false if it does not determine them.
fn list_down(want: &mut Vec<Want>, motion: &Motion) -> Result<bool, AllocError>
    ensures down { IfOk result (λ told. down_after motion.now.action motion.now.index (map contact motion.now.pointers)
        ≡ (if told then Some want.new.items else None)) }
    ensures list { OnOk result (IsRising want.new.items × (length want.new.items ≤ 16)) }
{
    want.clear();
    match motion.action {
        MotionAction::Down | MotionAction::PointerDown | MotionAction::Move => {
            add_contacts(want, motion.pointers.as_slice())?;
            Ok(true)
        }
        MotionAction::PointerUp => {
            add_contacts(want, motion.pointers.as_slice())?;
            take_away(want, usize::from(motion.index));
            Ok(true)
        }
        MotionAction::Up | MotionAction::Cancel => Ok(true),
        MotionAction::Outside => Ok(false),
    }
}

/// Lists the contacts that are down on a device after a message, with rising ids; false if that is no motion of the
/// device, or one that does not determine them.
pub(crate) fn list_wanted(
    want: &mut Vec<Want>,
    device: DeviceId,
    body: &Body,
) -> Result<bool, AllocError>
    ensures wanted { IfOk result (λ told. wanted_after device body.now
        ≡ (if told then Some want.new.items else None)) }
    ensures list { IfOk result (λ told. told ≡ true → IsRising want.new.items × (length want.new.items ≤ 16)) }
{
    match body {
        Body::Motion(motion) => {
            if motion.device.get() == device.get() {
                list_down(want, motion)
            } else {
                Ok(false)
            }
        }
        Body::Key(_) | Body::Focus(_) => Ok(false),
    }
}
