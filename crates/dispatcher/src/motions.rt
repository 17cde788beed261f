//! Motions of touch devices, and pilfering.
ghost use Rattle.std.specs.Prelude.{◌≡◌, ℕ, suc, Some, true, false, IfOk, OnOk, OnErr, IsOk, ◌==◌, ◌&&◌};
ghost use Rattle.std.specs.List.{list_any};
ghost use Rattle.window_snapshot.specs.Window.{is_spy, is_slippery};
ghost use Rattle.input_types.specs.declared.message.Args.TheVariants.{Motion as MotionArgs};
ghost use Rattle.input_types.specs.declared.motion.MotionAction.TheVariants.{Move};
ghost use Rattle.dispatch_calls.specs.declared.call.Call.TheVariants.{Pilfer};
ghost use Rattle.dispatch_calls.specs.declared.reply.Reply.TheVariants.{Done, Dispatched};
ghost use Rattle.dispatcher.specs.DispatchRound.Rounds.{IsTimely};
ghost use Rattle.dispatcher.specs.Roomy.{HasPumpRoom};
ghost use Rattle.dispatcher.specs.Tables.{Goes, Pumps, SameButRoom};

use crate::carry::{no_change, send, send_steadily, send_still};
use crate::dispatch_round::Round;
use crate::tables::Routing;
use crate::window_covers::gift_of;
use dispatch_calls::Reply;
use input_types::{DeviceId, Moment, Motion, MotionAction};
use route_split::{Mark, watchers};
use std::alloc::AllocError;
use window_snapshot::{Reach, Window, mask_has};

/// Dispatches a motion.
pub(crate) fn route_motion(
    routing: &mut Routing,
    motion: &Motion,
    place: u64,
    clock: Moment,
) -> Result<(), AllocError>
    requires { IsTimely clock routing.old.channels }
    ensures ok { OnOk result (Pumps (Some (MotionArgs motion.now)) Dispatched place clock routing.old routing.new) }
    ensures err { OnErr result (SameButRoom routing.old routing.new) }
    ensures roomy { (n : ℕ) → HasPumpRoom (suc n) routing.old → IsOk result × HasPumpRoom n routing.new }
{
    if is_move(motion.action) {
        if !routing.shown.slips() {
            return route_move(routing, motion, place, clock);
        }
    }
    let windows = routing.shown.windows();
    let display = routing.displays.of(motion.device);
    let reach = Reach {
        channels: routing.channels.live() & windows.on(display),
        display,
    };
    let able = routing.channels.able();
    let mark = routing.touches.mark_of(motion, windows, &reach, able);
    let round = Round {
        mark,
        motion: Some(motion),
        gift: gift_of(&mark, motion, windows, &reach),
        watchers: watchers(motion, windows, &reach, able),
        target: routing.focus.target().unwrap_or(0),
        keys: &[],
        lost: 0,
        gained: 0,
    };
    send(routing, &round, place, clock)
}

/// Dispatches a Move while no window is slippery: pointers only move, and none changes hands.
fn route_move(
    routing: &mut Routing,
    motion: &Motion,
    place: u64,
    clock: Moment,
) -> Result<(), AllocError>
    requires timely { IsTimely clock routing.old.channels }
    requires moves { motion.now.action ≡ Move }
    requires none { list_any is_slippery routing.old.shown.windows ≡ false }
    ensures ok { OnOk result (Pumps (Some (MotionArgs motion.now)) Dispatched place clock routing.old routing.new) }
    ensures err { OnErr result (SameButRoom routing.old routing.new) }
    ensures roomy { (n : ℕ) → HasPumpRoom (suc n) routing.old → IsOk result × HasPumpRoom n routing.new }
{
    let round = Round {
        mark: Mark::NoOp,
        motion: Some(motion),
        gift: None,
        watchers: 0,
        target: routing.focus.target().unwrap_or(0),
        keys: &[],
        lost: 0,
        gained: 0,
    };
    send_steadily(routing, &round, place, clock)
}

/// Whether the action is a Move.
pub(crate) fn is_move(action: MotionAction) -> bool
    ensures { result ≡ true → action ≡ Move }
{
    match action {
        MotionAction::Move => true,
        _ => false,
    }
}

/// A spy takes the pointers of a device that it holds from all other windows.
pub(crate) fn pilfer(
    routing: &mut Routing,
    channel: u32,
    device: DeviceId,
    place: u64,
    clock: Moment,
) -> Result<Reply, AllocError>
    requires { IsTimely clock routing.old.channels }
    ensures ok { IfOk result
        (λ answer. Goes (λ now. Pilfer now channel device) answer place clock routing.old routing.new) }
    ensures err { OnErr result (SameButRoom routing.old routing.new) }
{
    if !mask_has(routing.channels.live(), channel) {
        return Ok(Reply::Gone);
    }
    if !has_spy(routing.shown.windows().windows(), channel) {
        return Ok(Reply::NotSpy);
    }
    if !mask_has(routing.touches.holders(device), channel) {
        return Ok(Reply::NothingHeld);
    }
    let mark = Mark::Pilfer {
        device,
        window: channel,
    };
    let change = no_change(routing);
    send_still(routing, mark, &[], &change, place, clock)?;
    Ok(Reply::Done)
}

/// Whether the window of a channel is a spy.
fn has_spy(windows: &[Window], channel: u32) -> bool
    ensures { result ≡ list_any (λ v. v.channel == channel && is_spy v) windows.now }
{
    windows
        .iter()
        .any(|window| window.channel == channel && window.is_spy())
}
