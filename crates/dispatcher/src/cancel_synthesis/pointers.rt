//! The pointers of one device in a window, and the cancels of all of them.
ghost use Rattle.std.specs.Prelude.{◌≡◌, ◌+◌, ◌<◌, ◌++◌, OnOk};
ghost use Rattle.routing_rules.specs.Given.{changed};
ghost use Rattle.routing_rules.specs.Outgoing.{devices};
ghost use Rattle.dispatcher.specs.CancelSynthesis.Tracked.{pointers_after, without};
ghost use Rattle.dispatcher.specs.CancelSynthesis.Ends.{device_sent, devices_sent};

use crate::cancel_synthesis::cancels::{Cancels, without};
use input_types::{Body, DeviceId, Motion, MotionAction, Pointers};
use std::alloc::AllocError;

/// The pointers that a motion lists, except one that goes up with it.
fn left_by(motion: &Motion) -> Pointers
    ensures { result ≡ without (changed motion.now) motion.now.pointers }
{
    match motion.pointers.get(usize::from(motion.index)) {
        Some(pointer) => without(&motion.pointers, pointer.id),
        None => motion.pointers,
    }
}

/// The pointers of a device after a motion of it.
pub(crate) fn pointers_after(motion: &Motion, before: &Pointers) -> Pointers
    ensures { result ≡ pointers_after motion.now motion.now.action before.now }
{
    match motion.action {
        MotionAction::Down | MotionAction::PointerDown | MotionAction::Move => motion.pointers,
        MotionAction::PointerUp => left_by(motion),
        MotionAction::Up | MotionAction::Cancel => Pointers::empty(),
        MotionAction::Outside => *before,
    }
}

/// Adds the cancels of all pointers to a list, device by device.
pub(crate) fn cancel_devices(
    out: &mut Vec<Body>,
    pointers: &[Pointers; 8],
) -> Result<(), AllocError>
    ensures { OnOk result (out.new.items ≡ out.old.items ++ devices_sent pointers.now devices) }
{
    for (k, had) in pointers.iter().enumerate() {
        cancel_whole(out, device_at(k), had)?;
    }
    Ok(())
}

/// The device at an index of a table that begins with device 1.
fn device_at(place: usize) -> DeviceId
    requires { place < 8 }
    ensures { result ≡ place + 1 }
{
    match DeviceId::new(place as u8 + 1) {
        Some(device) => device,
        None => unreachable!(),
    }
}

/// Adds the cancel of all pointers of a device to a list, if there are any.
fn cancel_whole(out: &mut Vec<Body>, device: DeviceId, had: &Pointers) -> Result<(), AllocError>
    ensures { OnOk result (out.new.items ≡ out.old.items ++ device_sent device had.now) }
{
    let mut cancels = Cancels::new(device, had, &Pointers::empty(), had);
    if let Some(cancel) = cancels.next() {
        out.push(Body::Motion(cancel))?;
    }
    Ok(())
}
