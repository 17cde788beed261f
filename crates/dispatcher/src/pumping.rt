//! Pumps: the first args that wait are dispatched, or a key that is held is repeated.
ghost use Rattle.std.specs.Prelude.{◌≡◌, ◌≤◌, ◌<◌, ◌+◌, ◌-◌, ◌^◌, ℕ, suc, List, None, Some, Ok, slice_get, if◌then◌else◌};
ghost use Rattle.std.specs.Prelude.{IfOk, OnOk, OnErr, IsOk, IfSome};
ghost use Rattle.input_types.specs.DeviceRule.{device_of};
ghost use Rattle.dispatcher.specs.InboundArgs.Down.{PlansAt};
ghost use Rattle.dispatch_calls.specs.declared.call.Call.TheVariants.{Notify, Pump};
ghost use Rattle.dispatch_history.specs.Effect.{Effect};
ghost use Rattle.dispatch_history.specs.PointerOf.{RisesIn};
ghost use Rattle.dispatcher.specs.DispatchRound.Rounds.{IsTimely};
ghost use Rattle.dispatch_calls.specs.declared.reply.Reply.TheVariants.{Dispatched, Repeated, Idle};
ghost use Rattle.dispatcher.specs.Outcomes.{reply_of};
ghost use Rattle.dispatcher.specs.Memory.{IsCalm};
ghost use Rattle.dispatcher.specs.Roomy.{HasPumpRoom, KeepsPromise};
ghost use Rattle.dispatcher.specs.Tables.{TablesStandFor, MayStep, Pumps, GoesOn, GoesThrough};
ghost use Rattle.dispatcher.specs.Tables.{SameButRoom, SameAll};

use crate::inbound::Change;
use crate::key_steps::{repeat, route_key, route_reset};
use crate::motions::route_motion;
use crate::outcome::Outcome;
use crate::tables::{Routing, Tables};
use input_types::{Args, Moment};
use std::alloc::AllocError;

/// Dispatches the first args that wait.
pub(crate) fn dispatch_first(tables: &mut Tables, now: Moment) -> Result<(), AllocError>
    requires { MayStep tables.old }
    ensures ok { OnOk result (IfSome (slice_get tables.old.queueing.waiting 0)
        (λ args. GoesOn (Pump now) Dispatched tables.old tables.new)) }
    ensures err { OnErr result (SameAll tables.old tables.new) }
    ensures promise { KeepsPromise tables.old → KeepsPromise tables.new }
    ensures pumped { 1 ≤ tables.old.queueing.pumps → KeepsPromise tables.old → IsOk result }
    ensures pumps { tables.old.queueing.pumps ≤ tables.new.queueing.pumps + 1 }
{
    let clock = now.later(tables.queueing.clock());
    let place = tables.queueing.place();
    if let Some(args) = tables.queueing.first() {
        dispatch(&mut tables.routing, args, place, clock)?;
        tables.queueing.dispatch(now);
        tables.queueing.spend_pump();
    }
    Ok(())
}

/// Hands in args that need not wait, and dispatches them. They change what was planned for them.
pub(crate) fn dispatch_at_once(
    tables: &mut Tables,
    now: Moment,
    args: &Args,
    change: &Change,
) -> Result<(), AllocError>
    requires step { MayStep tables.old }
    requires place { tables.old.queueing.place < 2 ^ 64 - 2 }
    requires none { slice_get tables.old.queueing.waiting 0 ≡ None }
    requires planned { PlansAt tables.old.queueing.down args.now (Ok change.now) }
    requires device { (1 ≤ device_of args.now) × (device_of args.now ≤ 8) }
    requires rises { RisesIn (Notify now args.now) }
    ensures ok { OnOk result (GoesThrough now args.now tables.old tables.new) }
    ensures err { OnErr result (SameAll tables.old tables.new) }
    ensures promise { KeepsPromise tables.old → KeepsPromise tables.new }
{
    let clock = now.later(tables.queueing.clock());
    let place = tables.queueing.place();
    dispatch(&mut tables.routing, args, place + 1, clock)?;
    tables.queueing.pass(now, change);
    Ok(())
}

/// Dispatches args.
fn dispatch(routing: &mut Routing, args: &Args, place: u64, clock: Moment) -> Result<(), AllocError>
    requires { IsTimely clock routing.old.channels }
    ensures ok { OnOk result (Pumps (Some args.now) Dispatched place clock routing.old routing.new) }
    ensures err { OnErr result (SameButRoom routing.old routing.new) }
    ensures roomy { (n : ℕ) → HasPumpRoom (suc n) routing.old → IsOk result × HasPumpRoom n routing.new }
{
    match args {
        Args::Motion(motion) => route_motion(routing, motion, place, clock),
        Args::Key(key) => route_key(routing, key, place, clock),
        Args::Reset(device) => route_reset(routing, *device, place, clock),
    }
}

/// Repeats a held key, if that is due. No args wait.
pub(crate) fn idle(tables: &mut Tables, now: Moment) -> Result<Outcome, AllocError>
    requires step { MayStep tables.old }
    requires none { slice_get tables.old.queueing.waiting 0 ≡ None }
    ensures ok { IfOk result (λ answer. GoesOn (Pump now) (reply_of answer) tables.old tables.new) }
    ensures err { OnErr result (SameAll tables.old tables.new) }
    ensures calm { (es : List Effect) → TablesStandFor es tables.old → IsCalm es (Pump now) → IsOk result }
    ensures promise { KeepsPromise tables.old → KeepsPromise tables.new }
    ensures pumped { 1 ≤ tables.old.queueing.pumps → KeepsPromise tables.old → IsOk result }
    ensures pumps { tables.old.queueing.pumps ≤ tables.new.queueing.pumps + 1 }
{
    let clock = now.later(tables.queueing.clock());
    let place = tables.queueing.place();
    match repeat(&mut tables.routing, place, clock) {
        Ok(is_due) => {
            tables.queueing.step(now);
            tables.queueing.spend_pump();
            Ok(idle_outcome(is_due))
        }
        Err(error) => Err(error),
    }
}

/// The result of a pump if no args wait.
fn idle_outcome(is_due: bool) -> Outcome
    ensures { reply_of result ≡ (if is_due then Repeated else Idle) }
{
    if is_due {
        Outcome::Repeated
    } else {
        Outcome::Idle
    }
}
