//! A Move that bypasses the channels.
ghost use Rattle.std.specs.Prelude.{◌≡◌, ◌<◌, ◌≤◌, ◌-◌, ◌^◌, ℕ, suc, None, Ok, slice_get, IfOk, IfSome, OnErr};
ghost use Rattle.input_types.specs.DeviceRule.{device_of};
ghost use Rattle.input_types.specs.declared.message.Args.TheVariants.{Motion as MotionArgs};
ghost use Rattle.input_types.specs.declared.motion.MotionAction.TheVariants.{Move};
ghost use Rattle.dispatcher.specs.InboundArgs.Down.{PlansAt};
ghost use Rattle.dispatch_calls.specs.declared.call.Call.TheVariants.{Notify};
ghost use Rattle.dispatch_history.specs.PointerOf.{RisesIn};
ghost use Rattle.dispatcher.specs.DispatchRound.Rounds.{IsTimely};
ghost use Rattle.dispatcher.specs.Past.{GoesPast, PumpsPast};
ghost use Rattle.dispatcher.specs.Roomy.{HasPumpRoom, KeepsPromise};
ghost use Rattle.dispatcher.specs.Tables.{MayStep, SameAll, SameButRoom};

use crate::dispatch_round::{Round, keep_none, make_steady_room, send_past};
use crate::inbound::Change;
use crate::tables::{Routing, Tables};
use input_types::{Moment, Motion};
use route_split::Mark;
use std::alloc::AllocError;

/// Dispatches a Move past the channels, and returns the mask of the windows that were sent it. Returns `None` if a
/// window is slippery, so that the Move may give or take a pointer, or if a window that holds pointers of the device
/// keeps a message.
#[inline(always)]
fn route_past(
    routing: &mut Routing,
    motion: &Motion,
    clock: Moment,
) -> Result<Option<u64>, AllocError>
    requires timely { IsTimely clock routing.old.channels }
    requires moves { motion.now.action ≡ Move }
    requires device { (1 ≤ motion.now.device) × (motion.now.device ≤ 8) }
    ensures past { IfOk result (λ found. IfSome found (λ sent.
        (place : ℕ) → PumpsPast motion.now sent place clock routing.old routing.new)) }
    ensures none { IfOk result (λ found. found ≡ None → SameButRoom routing.old routing.new) }
    ensures err { OnErr result (SameButRoom routing.old routing.new) }
    ensures roomy { (n : ℕ) → HasPumpRoom (suc n) routing.old
        → IfOk result (λ found. IfSome found (λ sent. HasPumpRoom n routing.new)) }
{
    if routing.shown.slips() {
        return Ok(None);
    }
    let round = Round {
        mark: Mark::NoOp,
        motion: Some(motion),
        gift: None,
        watchers: 0,
        target: routing.focus.target().unwrap_or(0),
        keys: &[],
        lost: 0,
        gained: 0,
    };
    let outgoing = make_steady_room(&round, &routing.touches, &mut routing.channels)?;
    if !keep_none(outgoing, &routing.channels) {
        return Ok(None);
    }
    routing.touches.rest();
    let sent = send_past(
        outgoing,
        motion,
        &routing.touches,
        &mut routing.channels,
        clock,
    );
    Ok(Some(sent))
}

/// Hands in a Move that need not wait, and dispatches it past the channels.
#[inline(always)]
pub(crate) fn move_at_once(
    tables: &mut Tables,
    now: Moment,
    motion: &Motion,
    change: &Change,
) -> Result<Option<u64>, AllocError>
    requires step { MayStep tables.old }
    requires place { tables.old.queueing.place < 2 ^ 64 - 2 }
    requires none { slice_get tables.old.queueing.waiting 0 ≡ None }
    requires moves { motion.now.action ≡ Move }
    requires planned { PlansAt tables.old.queueing.down (MotionArgs motion.now) (Ok change.now) }
    requires device { (1 ≤ device_of (MotionArgs motion.now)) × (device_of (MotionArgs motion.now) ≤ 8) }
    requires rises { RisesIn (Notify now (MotionArgs motion.now)) }
    ensures past { IfOk result (λ found. IfSome found (λ sent. GoesPast now motion.now sent tables.old tables.new)) }
    ensures none { IfOk result (λ found. found ≡ None → SameAll tables.old tables.new) }
    ensures err { OnErr result (SameAll tables.old tables.new) }
    ensures promise { KeepsPromise tables.old → KeepsPromise tables.new }
{
    let clock = now.later(tables.queueing.clock());
    let Some(sent) = route_past(&mut tables.routing, motion, clock)? else {
        return Ok(None);
    };
    tables.queueing.pass(now, change);
    Ok(Some(sent))
}
