//! What a window is sent for a motion.
ghost use Rattle.std.specs.Prelude.{◌≡◌, ℕ, [], ◌∷◌, List, Bool, true, false, not, ◌&&◌, IfSome, if◌then◌else◌};
ghost use Rattle.std.specs.List.{list_any};
ghost use Rattle.bits32.specs.Set.{is_in};
ghost use Rattle.input_types.specs.declared.pointer.Pointer.{Pointer as Listed};
ghost use Rattle.routing_rules.specs.Scene.{Scene};
ghost use Rattle.routing_rules.specs.Given.{changed};
ghost use Rattle.routing_rules.specs.Outgoing.{is_up, sent_motion};
ghost use Rattle.split_motion.specs.Split.{as_down, split_of};
ghost use Rattle.split_motion.specs.Laws.{if_some};
ghost use Rattle.input_types.specs.declared.motion.MotionAction.TheVariants.{Move, Outside};
ghost use Rattle.routing_rules.specs.Outgoing.{listing, plain};
ghost use Rattle.route_split.specs.declared.sends.Sends.TheVariants.{One};
ghost use Rattle.route_split.specs.Sending.{IsSent, sent_rest, AreListed, OnlyNew};
ghost use Rattle.routing_rules.specs.Watching.{is_watching};

use crate::motion::changed;
use crate::sends::Sends;
use crate::sets::{has_id, lost_of};
use bits32::Bits32;
use input_types::{DeviceId, Motion, MotionAction, Pointer, PointerId, Pointers, PushRefused};
use split_motion::{is_up, part, plain, split};

/// What a window is sent for a motion with which it goes from holding one set to holding another.
pub(crate) fn sends_of(motion: &Motion, before: Bits32, later: Bits32, watches: bool) -> Sends
    ensures { (s : Scene) (w : ℕ) → watches ≡ is_watching s motion.now (changed motion.now) w
        → AreListed (λ i. is_in i before) (λ i. is_in i later) (s.last motion.now.device)
        → OnlyNew (changed motion.now) (λ i. is_in i before) (λ i. is_in i later)
        → IsSent result
        (sent_motion s motion.now (changed motion.now) w (λ i. is_in i before) (λ i. is_in i later)) motion.now.device
        (s.last motion.now.device) (λ i. is_in i before) }
{
    match changed(motion) {
        Some(pointer) => sends_changed(motion, pointer, before, later, watches),
        None => sends_rest(motion, before, later, None),
    }
}

/// The ids that move, if the set stays, none of its ids goes up with the motion, and some of them are listed. This is
/// the case for a Move, and when another window's pointer goes down or up.
#[inline(always)]
pub(crate) fn moving_of(motion: &Motion, before: Bits32, later: Bits32) -> Option<Bits32>
    ensures { IfSome result (λ ids. (s : Scene) (w : ℕ)
        → sent_motion s motion.now (changed motion.now) w (λ i. is_in i before) (λ i. is_in i later)
        ≡ plain motion.now.device Move (listing (λ i. is_in i ids) motion.now.pointers) ∷ []) }
{
    if before.bits() != later.bits() {
        return None;
    }
    if is_lifted(motion, later) {
        return None;
    }
    if has_some(&motion.pointers, later) {
        Some(later)
    } else {
        None
    }
}

/// Whether the id of the changed pointer is in the set, and it goes up.
fn is_lifted(motion: &Motion, held: Bits32) -> bool
    ensures { result ≡ false
        → IfSome (changed motion.now) (λ p. (is_up motion.now.action && is_in p.id held) ≡ false) }
{
    match changed(motion) {
        Some(pointer) => goes_up(motion.action, pointer.id, held),
        None => false,
    }
}

/// The same for a motion about a pointer.
fn sends_changed(
    motion: &Motion,
    pointer: Pointer,
    before: Bits32,
    later: Bits32,
    watches: bool,
) -> Sends
    requires { changed motion.now ≡ Some pointer }
    ensures { (s : Scene) (w : ℕ) → watches ≡ is_watching s motion.now (Some pointer) w
        → AreListed (λ i. is_in i before) (λ i. is_in i later) (s.last motion.now.device)
        → OnlyNew (Some pointer) (λ i. is_in i before) (λ i. is_in i later)
        → IsSent result
        (sent_motion s motion.now (Some pointer) w (λ i. is_in i before) (λ i. is_in i later)) motion.now.device
        (s.last motion.now.device) (λ i. is_in i before) }
{
    if is_given(pointer.id, before, later) {
        return sends_down(motion, later);
    }
    if goes_up(motion.action, pointer.id, before) {
        return sends_up(motion, before);
    }
    sends_rest(motion, before, later, watched_of(pointer, watches))
}

/// A window that holds these ids is sent a down of the changed pointer.
///
/// Like the other functions for rare messages it is not inlined: each list of pointers costs wherever it may be made,
/// and most motions only move.
#[inline(never)]
fn sends_down(motion: &Motion, later: Bits32) -> Sends
    ensures { (d : ℕ) (last : List Listed) (before : ℕ → Bool) →
        IsSent result (if_some (split_of (as_down motion.now) (λ i. is_in i later))) d last before }
{
    one_of(split(&as_down(motion), later))
}

/// A window that holds these ids is sent an up of the changed pointer.
#[inline(never)]
fn sends_up(motion: &Motion, held: Bits32) -> Sends
    ensures { (d : ℕ) (last : List Listed) (before : ℕ → Bool) →
        IsSent result (if_some (split_of motion.now (λ i. is_in i held))) d last before }
{
    one_of(split(motion, held))
}

/// A window is sent a touch outside.
#[inline(never)]
fn sends_outside(device: DeviceId, pointer: Pointer) -> Sends
    ensures { result ≡ One (plain device Outside (pointer ∷ [])) }
{
    Sends::One(plain(device, MotionAction::Outside, single(pointer)))
}

/// Whether the pointer with this id is given.
fn is_given(id: PointerId, before: Bits32, later: Bits32) -> bool
    ensures { result ≡ (is_in id later && not (is_in id before)) }
{
    has_id(later, id) && !has_id(before, id)
}

/// Whether the pointer with this id, which is held, goes up with the action.
fn goes_up(action: MotionAction, id: PointerId, before: Bits32) -> bool
    ensures { result ≡ (is_up action && is_in id before) }
{
    is_up(action) && has_id(before, id)
}

/// The pointer, if it is watched.
fn watched_of(pointer: Pointer, watches: bool) -> Option<Pointer>
    ensures { result ≡ (if watches then Some pointer else None) }
{
    if watches { Some(pointer) } else { None }
}

/// What a window is sent for pointers that are neither given nor go up: some are lost, or else some move, or else a
/// pointer is outside.
fn sends_rest(motion: &Motion, before: Bits32, later: Bits32, watched: Option<Pointer>) -> Sends
    ensures { (last : List Listed) → AreListed (λ i. is_in i before) (λ i. is_in i later) last
        → ((i : ℕ) → is_in i later ≡ true → is_in i before ≡ true)
        → IsSent result
        (sent_rest motion.now watched last (λ i. is_in i before) (λ i. is_in i later)) motion.now.device last
        (λ i. is_in i before) }
{
    let lost = lost_of(before, later);
    if lost.bits() != 0 {
        return Sends::Cancels { lost };
    }
    let moving = part(&motion.pointers, later);
    if !moving.is_empty() {
        return Sends::One(plain(motion.device, MotionAction::Move, moving));
    }
    match watched {
        Some(pointer) => sends_outside(motion.device, pointer),
        None => Sends::Nothing,
    }
}

/// Whether some of the pointers have ids in the set.
fn has_some(pointers: &Pointers, set: Bits32) -> bool
    ensures { result ≡ list_any (λ p. is_in p.id set) pointers.now }
{
    pointers
        .as_slice()
        .iter()
        .any(|pointer| set.has(pointer.id.get()))
}

/// The motion, if there is one.
fn one_of(motion: Option<Motion>) -> Sends
    ensures { (d : ℕ) (last : List Listed) (before : ℕ → Bool) → IsSent result (if_some motion) d last before }
{
    match motion {
        Some(outgoing) => Sends::One(outgoing),
        None => Sends::Nothing,
    }
}

/// The same motion as a down of its changed pointer.
fn as_down(motion: &Motion) -> Motion
    ensures { result ≡ as_down motion.now }
{
    Motion {
        device: motion.device,
        action: MotionAction::Down,
        index: motion.index,
        flags: motion.flags,
        pointers: motion.pointers,
    }
}

/// The list of one pointer.
fn single(pointer: Pointer) -> Pointers
    ensures { result ≡ pointer ∷ [] }
{
    let mut list = Pointers::empty();
    match list.push(pointer) {
        Ok(()) => list,
        Err(PushRefused::Full) | Err(PushRefused::NotRising) => unreachable!(),
    }
}
