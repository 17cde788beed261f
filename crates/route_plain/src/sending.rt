//! What one channel is sent for a device.
ghost use Rattle.std.specs.Prelude.{◌≡◌, ◌++◌, [], ◌∷◌, ◌&&◌, not, length, Some, OnOk};
ghost use Rattle.std.specs.List.{list_any};
ghost use Rattle.bits32.specs.Set.{is_in};
ghost use Rattle.routing_rules.specs.Given.{changed};
ghost use Rattle.routing_rules.specs.Outgoing.{listing, cancelled_ups, cancels, moves, or_else, sent_motion};
ghost use Rattle.route_plain.specs.Seen.{scene_at};
ghost use Rattle.route_plain.specs.Route.{to_channel};
ghost use Rattle.routing_rules.specs.Watching.{is_watching, outside_of};

use crate::change::changed;
use crate::hold::has_id;
use crate::listing::{about, closing, is_cancelled, is_up, listing, opening, plain, single};
use crate::seen::{Seen, last_of};
use crate::turn::Said;
use bits32::Bits32;
use input_types::{DeviceId, FLAG_CANCELED, Motion, MotionAction, Pointer, PointerId, Pointers};
use std::alloc::AllocError;

/// The ids that a window holds of a device before and after a turn.
#[derive(Clone, Copy)]
pub(crate) struct Held {
    pub(crate) before: Bits32,
    pub(crate) later: Bits32,
}

/// Sends a channel its part of a motion.
pub(crate) fn send_motion(
    out: &mut Vec<Said>,
    channel: u32,
    seen: &Seen,
    motion: &Motion,
    held: &Held,
    watching: bool,
) -> Result<(), AllocError>
    requires whole { length seen.now.last.now ≡ 8 }
    requires watching { watching ≡ is_watching (scene_at seen.now) motion.now (changed motion.now) channel }
    ensures { OnOk result
        (out.new.items ≡ out.old.items
        ++ to_channel channel
        (sent_motion (scene_at seen.now) motion.now (changed motion.now) channel (λ i. is_in i held.now.before)
        (λ i. is_in i held.now.later))) }
{
    match changed(motion) {
        Some(pointer) => send_changed(out, channel, seen, motion, pointer, held, watching),
        None => send_rest(out, channel, seen, motion, held, None),
    }
}

/// Sends a channel what it loses of a device.
pub(crate) fn send_cancels(
    out: &mut Vec<Said>,
    channel: u32,
    device: DeviceId,
    last: &Pointers,
    held: &Held,
) -> Result<(), AllocError>
    ensures { OnOk result
        (out.new.items ≡ out.old.items
        ++ to_channel channel (cancels device last.now (λ i. is_in i held.now.before) (λ i. is_in i held.now.later))) }
{
    if loses_some(last, held) {
        if lists_some(held.later, last) {
            return send_ups(out, channel, device, last, held);
        }
        let had = listing(held.before, last);
        return say(out, channel, plain(device, MotionAction::Cancel, &had));
    }
    Ok(())
}

/// Sends a channel its part of a motion that has a changed pointer.
fn send_changed(
    out: &mut Vec<Said>,
    channel: u32,
    seen: &Seen,
    motion: &Motion,
    pointer: Pointer,
    held: &Held,
    watching: bool,
) -> Result<(), AllocError>
    requires whole { length seen.now.last.now ≡ 8 }
    requires watching { watching ≡ is_watching (scene_at seen.now) motion.now (Some pointer) channel }
    ensures { OnOk result
        (out.new.items ≡ out.old.items
        ++ to_channel channel
        (sent_motion (scene_at seen.now) motion.now (Some pointer) channel (λ i. is_in i held.now.before)
        (λ i. is_in i held.now.later))) }
{
    if is_given(held, pointer.id) {
        let now = listing(held.later, &motion.pointers);
        return say(out, channel, opening(motion.device, pointer.id, &now));
    }
    if is_up(motion.action) && has_id(held.before, pointer.id) {
        let had = listing(held.before, &motion.pointers);
        let cancelled = is_cancelled(motion.action, motion.flags);
        return say(
            out,
            channel,
            closing(motion.device, pointer.id, cancelled, &had),
        );
    }
    let watched = if watching { Some(pointer) } else { None };
    send_rest(out, channel, seen, motion, held, watched)
}

/// Sends a channel what it loses, or else what moves, or else a touch outside if it watches this pointer.
fn send_rest(
    out: &mut Vec<Said>,
    channel: u32,
    seen: &Seen,
    motion: &Motion,
    held: &Held,
    watched: Option<Pointer>,
) -> Result<(), AllocError>
    requires { length seen.now.last.now ≡ 8 }
    ensures { let s = scene_at seen.now in
        let m = motion.now in
        OnOk result (out.new.items
        ≡ out.old.items
        ++ to_channel channel
        (or_else (cancels m.device (s.last m.device) (λ i. is_in i held.now.before) (λ i. is_in i held.now.later))
        (or_else (moves m.device (listing (λ i. is_in i held.now.later) m.pointers)) (outside_of m.device watched)))) }
{
    let last = last_of(seen.last, motion.device);
    if loses_some(last, held) {
        return send_cancels(out, channel, motion.device, last, held);
    }
    if lists_some(held.later, &motion.pointers) {
        let moving = listing(held.later, &motion.pointers);
        return say(
            out,
            channel,
            plain(motion.device, MotionAction::Move, &moving),
        );
    }
    send_outside(out, channel, motion.device, watched)
}

/// Sends a touch outside, if there is one.
fn send_outside(
    out: &mut Vec<Said>,
    channel: u32,
    device: DeviceId,
    watched: Option<Pointer>,
) -> Result<(), AllocError>
    ensures { OnOk result (out.new.items ≡ out.old.items ++ to_channel channel (outside_of device watched)) }
{
    match watched {
        Some(pointer) => say(
            out,
            channel,
            plain(device, MotionAction::Outside, &single(pointer)),
        ),
        None => Ok(()),
    }
}

/// Sends a cancelled up for each pointer that the window loses, each listing what remains with it.
fn send_ups(
    out: &mut Vec<Said>,
    channel: u32,
    device: DeviceId,
    last: &Pointers,
    held: &Held,
) -> Result<(), AllocError>
    ensures { OnOk result
        (out.new.items ≡ out.old.items
        ++ to_channel channel
        (cancelled_ups device (listing (λ i. is_in i held.now.before) last.now)
        (listing (λ i. is_in i held.now.before && not (is_in i held.now.later)) last.now))) }
{
    let mut ids = held.before;
    for pointer in last.as_slice() {
        if is_lost(held, pointer.id) {
            let left = listing(ids, last);
            let up = about(
                device,
                MotionAction::PointerUp,
                pointer.id,
                FLAG_CANCELED,
                &left,
            );
            say(out, channel, up)?;
            ids.clear(pointer.id.get());
        }
    }
    Ok(())
}

/// Sends a motion to a channel.
fn say(out: &mut Vec<Said>, channel: u32, motion: Motion) -> Result<(), AllocError>
    ensures { OnOk result (out.new.items ≡ out.old.items ++ to_channel channel (motion ∷ [])) }
{
    out.push(Said { channel, motion })?;
    Ok(())
}

/// Whether the window is given the pointer with this id.
fn is_given(held: &Held, id: PointerId) -> bool
    ensures { result ≡ (is_in id held.now.later && not (is_in id held.now.before)) }
{
    has_id(held.later, id) && !has_id(held.before, id)
}

/// Whether the window loses the pointer with this id.
fn is_lost(held: &Held, id: PointerId) -> bool
    ensures { result ≡ (is_in id held.now.before && not (is_in id held.now.later)) }
{
    has_id(held.before, id) && !has_id(held.later, id)
}

/// Whether the window loses one of the pointers.
fn loses_some(last: &Pointers, held: &Held) -> bool
    ensures { result ≡ list_any (λ p. is_in p.id held.now.before && not (is_in p.id held.now.later)) last.now }
{
    last.as_slice()
        .iter()
        .any(|pointer| is_lost(held, pointer.id))
}

/// Whether one of the pointers is in the set.
fn lists_some(ids: Bits32, pointers: &Pointers) -> bool
    ensures { result ≡ list_any (λ p. is_in p.id ids) pointers.now }
{
    pointers
        .as_slice()
        .iter()
        .any(|pointer| has_id(ids, pointer.id))
}
