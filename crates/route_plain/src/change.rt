//! What a turn gives and takes.
ghost use Rattle.std.specs.Prelude.{◌≡◌, ℕ, ◌&&◌, ◌||◌, not, map, filter, option_map, IfOk};
ghost use Rattle.window_snapshot.specs.Mask.{mask_has};
ghost use Rattle.window_snapshot.specs.Hits.{is_spy_at};
ghost use Rattle.routing_rules.specs.Scene.{Moves};
ghost use Rattle.routing_rules.specs.Slip.{slip};
ghost use Rattle.routing_rules.specs.Given.{given, taken, pairs, slips_in, changed};
ghost use Rattle.routing_rules.specs.Choice.{takers, is_candidate_of, may_take};
ghost use Rattle.route_plain.specs.Loss.{taking_of};
ghost use Rattle.route_plain.specs.Seen.{scene_at};
ghost use Rattle.route_plain.specs.Route.{hold_from, step_of};
ghost use Rattle.route_plain.specs.Slipping.{rule_slip};
ghost use Rattle.route_plain.specs.Changing.{IsChange, IsNoMotion};

use crate::choice::{choice_at, is_taker, some_pilfering};
use crate::hold::{Hold, began, ids_with};
use crate::loss::Loss;
use crate::seen::{Seen, reach_of};
use crate::slip::{Slip, slip_of};
use crate::turn::Turn;
use bits32::Bits32;
use input_types::{DeviceId, Motion, MotionAction, Pixel, Pointer, PointerId};
use std::alloc::{AllocError, Global};

/// What a turn gives, in the order in which it is appended to what was held, and what it takes.
#[derive(Drop)]
pub(crate) struct Change {
    pub(crate) gained: Vec<Hold>,
    pub(crate) loss: Loss,
}

/// The hold of a window that is given a pointer at a turn.
fn hold_from(seen: &Seen, turn: u64, window: u32, device: DeviceId, id: PointerId) -> Hold
    ensures { result ≡ hold_from turn seen.now.holds.now (record { window = window; device = device; id = id }) }
{
    Hold {
        window,
        device,
        id,
        since: began(seen.holds, window, device).unwrap_or(turn),
    }
}

/// The holds of those that get a pointer, of these candidates.
fn taken_by(
    alloc: Global,
    seen: &Seen,
    turn: u64,
    device: DeviceId,
    id: PointerId,
    chosen: Option<u32>,
    spies: u64,
    some_pilfering: bool,
    at: Pixel,
) -> Result<Vec<Hold>, AllocError>
    ensures { let s = scene_at seen.now in
        IfOk result (λ v. v.items
        ≡ map (λ w. hold_from turn seen.now.holds.now (record { window = w.channel; device = device; id = id }))
        (filter (λ w. is_candidate_of chosen (mask_has spies) w.channel
        && (s.pilfering w.channel device || not some_pilfering) && may_take s device at w.channel) s.windows)) }
{
    seen.snapshot
        .windows()
        .iter()
        .filter(|window| is_taker(
            seen,
            device,
            chosen,
            spies,
            some_pilfering,
            at,
            window.channel,
        ))
        .map(|window| hold_from(seen, turn, window.channel, device, id))
        .collect(alloc)
}

/// The spies of the snapshot at a point.
fn spies(seen: &Seen, device: DeviceId, at: Pixel) -> u64
    ensures { let s = scene_at seen.now in (c : ℕ)
        → mask_has result c ≡ is_spy_at s.windows (s.reach device) at.x at.y c }
{
    seen.snapshot.spies(at.x, at.y, &reach_of(seen))
}

/// The holds of those that get a pointer that goes down.
fn gained_down(
    alloc: Global,
    seen: &Seen,
    turn: u64,
    device: DeviceId,
    pointer: Pointer,
) -> Result<Vec<Hold>, AllocError>
    ensures { let s = scene_at seen.now in
        IfOk result (λ v. v.items
        ≡ map (hold_from turn seen.now.holds.now) (pairs device pointer.id (takers s device pointer.at))) }
{
    let chosen = choice_at(seen, device, pointer.at).window;
    let spies = spies(seen, device, pointer.at);
    let some = some_pilfering(seen, device, chosen, spies);
    taken_by(
        alloc, seen, turn, device, pointer.id, chosen, spies, some, pointer.at,
    )
}

/// The hold of the window that a pointer slips to.
fn gained_slip(
    alloc: Global,
    seen: &Seen,
    turn: u64,
    device: DeviceId,
    id: PointerId,
    slipped: Option<Slip>,
) -> Result<Vec<Hold>, AllocError>
    ensures { IfOk result
        (λ v. v.items ≡ map (hold_from turn seen.now.holds.now) (slips_in device id (option_map rule_slip slipped))) }
{
    let mut gained = Vec::new(alloc);
    if let Some(slip) = slipped {
        gained.push(hold_from(seen, turn, slip.to, device, id))?;
    }
    Ok(gained)
}

/// The pointer that goes down or up with a motion, or the first one of a move.
pub(crate) fn changed(motion: &Motion) -> Option<Pointer>
    ensures { result ≡ changed motion.now }
{
    motion.pointers.get(usize::from(motion.index))
}

/// What a motion gives.
fn gained(
    alloc: Global,
    seen: &Seen,
    turn: u64,
    motion: &Motion,
    slipped: Option<Slip>,
) -> Result<Vec<Hold>, AllocError>
    requires { option_map rule_slip slipped ≡ slip (scene_at seen.now) motion.now }
    ensures { IfOk result
        (λ v. v.items ≡ map (hold_from turn seen.now.holds.now) (given (scene_at seen.now) (Moves motion.now))) }
{
    let Some(pointer) = changed(motion) else {
        return Ok(Vec::new(alloc));
    };
    match motion.action {
        MotionAction::Down | MotionAction::PointerDown => gained_down(
            alloc,
            seen,
            turn,
            motion.device,
            pointer,
        ),
        MotionAction::Move => gained_slip(alloc, seen, turn, motion.device, pointer.id, slipped),
        _ => Ok(Vec::new(alloc)),
    }
}

/// What a motion takes.
fn lost(seen: &Seen, motion: &Motion, slipped: Option<Slip>) -> Loss
    requires { option_map rule_slip slipped ≡ slip (scene_at seen.now) motion.now }
    ensures { taking_of seen.now.snapshot.now result ≡ taken (scene_at seen.now) (Moves motion.now) }
{
    let Some(pointer) = changed(motion) else {
        return Loss::None;
    };
    match motion.action {
        MotionAction::Up | MotionAction::PointerUp | MotionAction::Cancel => Loss::Lift {
            device: motion.device,
            id: pointer.id,
        },
        MotionAction::Move => match slipped {
            Some(slip) => Loss::Slip {
                window: slip.from,
                device: motion.device,
                id: pointer.id,
            },
            None => Loss::None,
        },
        _ => Loss::None,
    }
}

/// What a motion changes.
fn change_by(alloc: Global, seen: &Seen, turn: u64, motion: &Motion) -> Result<Change, AllocError>
    ensures { IfOk result
        (λ k. IsChange (scene_at seen.now) (Moves motion.now) turn seen.now.holds.now k.gained.items k.loss) }
{
    let slipped = slip_of(seen, motion);
    let gained = gained(alloc, seen, turn, motion, slipped)?;
    let loss = lost(seen, motion, slipped);
    Ok(Change { gained, loss })
}

/// What a turn that is no motion takes; such a turn gives nothing.
fn loss_of(seen: &Seen, turn: &Turn) -> Loss
    requires { IsNoMotion turn.now }
    ensures { let s = scene_at seen.now in taking_of s.windows result ≡ taken s (step_of turn.now s.windows) }
{
    match *turn {
        Turn::Pointers(_) => unreachable!(),
        Turn::Reset(device) => Loss::Empty { device },
        Turn::Pilfer { channel, device } => Loss::Pilfer {
            window: channel,
            device,
            ids: ids_with(Bits32::empty(), seen.holds, channel, device),
        },
        Turn::Windows => Loss::Unnamed,
        Turn::Mute { channels } => Loss::Mute { channels },
        Turn::Forget { channel } => Loss::Forget { channel },
    }
}

/// What a turn changes.
pub(crate) fn change_of(
    alloc: Global,
    seen: &Seen,
    number: u64,
    turn: &Turn,
) -> Result<Change, AllocError>
    ensures { let s = scene_at seen.now in IfOk result
        (λ k. IsChange s (step_of turn.now s.windows) number seen.now.holds.now k.gained.items k.loss) }
{
    match turn {
        Turn::Pointers(motion) => change_by(alloc, seen, number, motion),
        _ => Ok(Change {
            gained: Vec::new(alloc),
            loss: loss_of(seen, turn),
        }),
    }
}
