//! What all channels are sent.
ghost use Rattle.std.specs.Prelude.{◌≡◌, ◌++◌, ◌≤◌, ◌&&◌, not, ℕ, length, IfOk, OnOk};
ghost use Rattle.bits32.specs.Set.{is_in};
ghost use Rattle.window_snapshot.specs.Hits.{is_watcher_at};
ghost use Rattle.window_snapshot.specs.Mask.{mask_has};
ghost use Rattle.routing_rules.specs.Given.{changed};
ghost use Rattle.routing_rules.specs.Pairs.{has};
ghost use Rattle.routing_rules.specs.Taking.{takes};
ghost use Rattle.routing_rules.specs.Outgoing.{after};
ghost use Rattle.route_plain.specs.Changing.{IsChange};
ghost use Rattle.route_plain.specs.Holds.{pairs_of, ids_with};
ghost use Rattle.route_plain.specs.Loss.{taking_of, mark_of};
ghost use Rattle.route_plain.specs.Seen.{scene_at};
ghost use Rattle.route_plain.specs.Route.{to_channel, said_up_to, said_at, holds_left, step_of};
ghost use Rattle.route_plain.specs.Sending.{sent_moved, sent_lost, sent_losses};
ghost use Rattle.routing_rules.specs.Watching.{is_watching};

use crate::change::{Change, changed};
use crate::hold::{Hold, channels_with, ids_with, is_of, with_id};
use crate::loss::{Loss, is_taken};
use crate::seen::{Seen, last_of, reach_of};
use crate::sending::{Held, send_cancels, send_motion};
use crate::turn::{Said, Turn};
use bits32::Bits32;
use input_types::{DeviceId, Motion, MotionAction, Pixel, Pointer};
use std::alloc::{AllocError, Global};
use window_snapshot::{Window, mask_has};

/// What is sent at a turn that changes this.
pub(crate) fn said_at(
    alloc: Global,
    seen: &Seen,
    turn: &Turn,
    number: u64,
    change: &Change,
) -> Result<Vec<Said>, AllocError>
    requires whole { length seen.now.last.now ≡ 8 }
    requires change { let s = scene_at seen.now in IsChange s
        (step_of turn.now s.windows) number seen.now.holds.now change.now.gained.items change.now.loss }
    ensures { let s = scene_at seen.now in IfOk result (λ v. v.items ≡ said_at s (step_of turn.now s.windows)) }
{
    match turn {
        Turn::Pointers(motion) => said_of_motion(alloc, seen, motion, change),
        Turn::Forget { .. } => Ok(Vec::new(alloc)),
        _ => said_of_loss(alloc, seen, change),
    }
}

/// What is sent for a motion.
fn said_of_motion(
    alloc: Global,
    seen: &Seen,
    motion: &Motion,
    change: &Change,
) -> Result<Vec<Said>, AllocError>
    requires { length seen.now.last.now ≡ 8 }
    ensures said { let s = scene_at seen.now in
        IfOk result (λ v. v.items
        ≡ said_up_to (sent_moved s (mark_of s.windows change.now.gained.items change.now.loss) motion.now) 64) }
    ensures device { (1 ≤ motion.now.device) × (motion.now.device ≤ 8) }
{
    let mut out = Vec::new(alloc);
    // Its clause `range` says that the number of the device is one of 1 to 8, which nothing else here reads.
    let _last = last_of(seen.last, motion.device);
    let watching = watching(seen, motion, changed(motion));
    let concerned = channels_with(channels_with(watching, seen.holds), &change.gained);
    for below in 0..64 {
        let channel = below + 1;
        if mask_has(concerned, channel) {
            let watches = mask_has(watching, channel);
            send_channel(&mut out, channel, seen, motion, change, watches)?;
        }
    }
    Ok(out)
}

/// Sends a channel its part of a motion.
fn send_channel(
    out: &mut Vec<Said>,
    channel: u32,
    seen: &Seen,
    motion: &Motion,
    change: &Change,
    watches: bool,
) -> Result<(), AllocError>
    requires whole { length seen.now.last.now ≡ 8 }
    requires watching { watches ≡ is_watching (scene_at seen.now) motion.now (changed motion.now) channel }
    ensures { let s = scene_at seen.now in
        OnOk result (out.new.items
        ≡ out.old.items
        ++ to_channel channel
        (sent_moved s (mark_of s.windows change.now.gained.items change.now.loss) motion.now channel)) }
{
    let held = held_around(seen, change, channel, motion.device);
    send_motion(out, channel, seen, motion, &held, watches)
}

/// What is sent for a loss.
fn said_of_loss(alloc: Global, seen: &Seen, change: &Change) -> Result<Vec<Said>, AllocError>
    requires { length seen.now.last.now ≡ 8 }
    ensures { let s = scene_at seen.now in
        IfOk result (λ v. v.items
        ≡ said_up_to (sent_losses s (mark_of s.windows change.now.gained.items change.now.loss)) 64) }
{
    let mut out = Vec::new(alloc);
    for below in 0..64 {
        send_losses(&mut out, below + 1, seen, change)?;
    }
    Ok(out)
}

/// Sends a channel what it loses, device by device.
fn send_losses(
    out: &mut Vec<Said>,
    channel: u32,
    seen: &Seen,
    change: &Change,
) -> Result<(), AllocError>
    requires { length seen.now.last.now ≡ 8 }
    ensures { let s = scene_at seen.now in
        OnOk result (out.new.items
        ≡ out.old.items
        ++ to_channel channel (sent_losses s (mark_of s.windows change.now.gained.items change.now.loss) channel)) }
{
    for below in 0..8 {
        let Some(device) = DeviceId::new(below + 1) else {
            unreachable!();
        };
        send_loss(out, channel, seen, change, device)?;
    }
    Ok(())
}

/// Sends a channel what it loses of a device.
fn send_loss(
    out: &mut Vec<Said>,
    channel: u32,
    seen: &Seen,
    change: &Change,
    device: DeviceId,
) -> Result<(), AllocError>
    requires { length seen.now.last.now ≡ 8 }
    ensures { let s = scene_at seen.now in
        OnOk result (out.new.items
        ≡ out.old.items
        ++ to_channel channel
        (sent_lost s (mark_of s.windows change.now.gained.items change.now.loss) channel device)) }
{
    let held = held_around(seen, change, channel, device);
    let last = last_of(seen.last, device);
    send_cancels(out, channel, device, last, &held)
}

/// What a window holds of a device before and after a turn that changes this.
fn held_around(seen: &Seen, change: &Change, window: u32, device: DeviceId) -> Held
    ensures before { (λ i. is_in i result.before) ≡ (scene_at seen.now).holds window device }
    ensures later { let s = scene_at seen.now in (λ i. is_in i result.later)
        ≡ after s (mark_of s.windows change.now.gained.items change.now.loss) window device }
{
    let before = ids_with(Bits32::empty(), seen.holds, window, device);
    let kept = ids_kept(before, seen, &change.loss, window, device);
    Held {
        before,
        later: ids_with(kept, &change.gained, window, device),
    }
}

/// Those of the ids that a window held of a device that a loss leaves.
fn ids_kept(before: Bits32, seen: &Seen, loss: &Loss, window: u32, device: DeviceId) -> Bits32
    requires { before ≡ ids_with 0 seen.now.holds.now window device }
    ensures { (i : ℕ)
        → is_in i result
        ≡ (has (pairs_of seen.now.holds.now) window device i
        && not (takes (taking_of seen.now.snapshot.now loss.now) window device i)) }
{
    match *loss {
        Loss::None => before,
        _ => ids_left(
            seen.holds,
            loss,
            seen.snapshot.windows(),
            Bits32::empty(),
            window,
            device,
        ),
    }
}

/// The set with the ids of a window's holds on the device that are left.
fn ids_left(
    holds: &[Hold],
    loss: &Loss,
    windows: &[Window],
    set: Bits32,
    window: u32,
    device: DeviceId,
) -> Bits32
    ensures { result ≡ ids_with set (holds_left (taking_of windows.now loss.now) holds.now) window device }
{
    holds
        .iter()
        .filter(|hold| !is_taken(loss, windows, hold))
        .filter(|hold| is_of(hold, window, device))
        .fold(set, |ids, hold| with_id(ids, hold.id))
}

/// The channels that watch for touches outside of them, where this pointer begins a gesture.
fn watching(seen: &Seen, motion: &Motion, pointer: Option<Pointer>) -> u64
    ensures { (c : ℕ) → mask_has result c ≡ is_watching (scene_at seen.now) motion.now pointer c }
{
    match (motion.action, pointer) {
        (MotionAction::Down, Some(pointer)) => seen.able
            & watchers(seen, motion.device, pointer.at),
        _ => 0,
    }
}

/// The watchers of the snapshot at a point.
fn watchers(seen: &Seen, device: DeviceId, at: Pixel) -> u64
    ensures { let s = scene_at seen.now in (c : ℕ)
        → mask_has result c ≡ is_watcher_at s.windows (s.reach device) at.x at.y c }
{
    seen.snapshot.watchers(at.x, at.y, &reach_of(seen))
}
