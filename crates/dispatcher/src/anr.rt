//! Windows that do not respond.
ghost use Rattle.std.specs.Prelude.{◌≡◌, ◌≤◌, ℕ, false, IfOk, OnOk, OnErr, IsOk, vec_capacity};
ghost use Rattle.dispatch_calls.specs.declared.call.Call.TheVariants.{Tick};
ghost use Rattle.dispatcher.specs.DispatchChannels.Table.{due_moment};
ghost use Rattle.dispatch_history.specs.Reply.{is_due};
ghost use Rattle.dispatcher.specs.DispatchRound.Rounds.{IsTimely};
ghost use Rattle.dispatcher.specs.Anr.{Names};
ghost use Rattle.dispatcher.specs.Keying.{named_keys};
ghost use Rattle.dispatcher.specs.Tables.{Goes, SameButRoom};

use crate::carry::carry_out;
use crate::dispatch_round::{Round, make_room};
use crate::key_steps::listening;
use crate::tables::Routing;
use dispatch_calls::Reply;
use input_types::{KeyMsg, Moment};
use route_split::Mark;
use std::alloc::AllocError;
use window_snapshot::mask_has;

/// Reports the windows that left a message unfinished for too long, and returns their mask. Everything that they hold
/// is taken from them.
pub(crate) fn tick(routing: &mut Routing, place: u64, clock: Moment) -> Result<Reply, AllocError>
    requires { IsTimely clock routing.old.channels }
    ensures ok { IfOk result (λ answer. Goes (λ now. Tick now) answer place clock routing.old routing.new) }
    ensures err { OnErr result (SameButRoom routing.old routing.new) }
    ensures calm { ((c : ℕ) → is_due (due_moment routing.old.channels c) clock ≡ false) → IsOk result }
{
    let mask = routing.channels.late(clock);
    if mask == 0 {
        return Ok(Reply::Named(0));
    }
    name_some(routing, mask, place, clock)?;
    Ok(Reply::Named(mask))
}

/// Reports the windows of a mask. If the key target is one of them, its keys are cancelled.
fn name_some(routing: &mut Routing, mask: u64, place: u64, clock: Moment) -> Result<(), AllocError>
    requires { IsTimely clock routing.old.channels }
    ensures ok { OnOk result
        (Names mask (named_keys routing.old.focus mask routing.old.channels) place clock routing.old routing.new) }
    ensures err { OnErr result (SameButRoom routing.old routing.new) }
{
    let mut keys = routing.cancelled.take();
    let named = send_names(routing, &mut keys, mask, place, clock);
    routing.cancelled.keep(keys);
    named
}

/// Does the same with a list for the cancelled keys.
fn send_names(
    routing: &mut Routing,
    keys: &mut Vec<KeyMsg>,
    mask: u64,
    place: u64,
    clock: Moment,
) -> Result<(), AllocError>
    requires { IsTimely clock routing.old.channels }
    ensures ok { OnOk result
        (Names mask (named_keys routing.old.focus mask routing.old.channels) place clock routing.old routing.new) }
    ensures err { OnErr result (SameButRoom routing.old routing.new) }
    ensures list { vec_capacity keys.old ≤ vec_capacity keys.new }
{
    match listening(routing) {
        Some(target) if mask_has(mask, target) => {
            routing.channels.input(target).cancel_keys_into(keys)?;
            name(routing, mask, keys.as_slice(), place, clock)
        }
        _ => name(routing, mask, &[], place, clock),
    }
}

/// Reports the windows of a mask, and sends the key target these keys.
fn name(
    routing: &mut Routing,
    mask: u64,
    keys: &[KeyMsg],
    place: u64,
    clock: Moment,
) -> Result<(), AllocError>
    requires { IsTimely clock routing.old.channels }
    ensures ok { OnOk result (Names mask keys.now place clock routing.old routing.new) }
    ensures err { OnErr result (SameButRoom routing.old routing.new) }
{
    let round = Round {
        mark: Mark::Mute { channels: mask },
        motion: None,
        gift: None,
        watchers: 0,
        target: routing.focus.target().unwrap_or(0),
        keys,
        lost: 0,
        gained: 0,
    };
    let outgoing = make_room(&round, &routing.touches, &mut routing.channels)?;
    routing.channels.name(mask, clock)?;
    carry_out(routing, outgoing, &round, place, clock);
    Ok(())
}
