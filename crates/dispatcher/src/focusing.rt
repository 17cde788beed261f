//! Calls that change who has the focus: a channel is opened, windows are shown, the focus is requested.
ghost use Rattle.std.specs.Prelude.{◌≡◌, ◌<◌, ◌≤◌, [], IfOk, OnOk, OnErr, IsOk, vec_capacity};
ghost use Rattle.dispatch_calls.specs.declared.call.Call.TheVariants.{Open, Windows, FocusOn};
ghost use Rattle.route_split.specs.Marking.{IsWhole};
ghost use Rattle.dispatcher.specs.DispatchRound.Rounds.{IsTimely};
ghost use Rattle.focus_resolver.specs.Resolver.{target_of};
ghost use Rattle.dispatcher.specs.Carrying.{CarriesSome, IsSilent};
ghost use Rattle.dispatcher.specs.Needing.{LeavesFocus};
ghost use Rattle.dispatcher.specs.Opening.{IsWelcome, Welcomes};
ghost use Rattle.dispatcher.specs.Keying.{lost_keys};
ghost use Rattle.dispatcher.specs.Tables.{Goes, SameButRoom};

use crate::carry::{carry_out, send_still};
use crate::dispatch_round::{Round, listeners};
use crate::key_steps::listening;
use crate::key_tables::focusable;
use crate::stays::staying;
use crate::tables::Routing;
use dispatch_calls::{Reply, Terms};
use focus_resolver::Change;
use input_types::{DisplayId, KeyMsg, Moment};
use route_split::Mark;
use std::alloc::AllocError;
use window_snapshot::{Snapshot, mask_with};

/// Opens a channel. Its window has the focus at once if it was requested before and the windows list it.
pub(crate) fn open(
    routing: &mut Routing,
    terms: Terms,
    place: u64,
    clock: Moment,
) -> Result<Reply, AllocError>
    requires { IsTimely clock routing.old.channels }
    ensures ok { IfOk result (λ answer. Goes (λ now. Open terms) answer place clock routing.old routing.new) }
    ensures err { OnErr result (SameButRoom routing.old routing.new) }
{
    match routing.channels.open(terms) {
        Ok(Some(number)) => {
            welcome(routing, number, place, clock);
            Ok(Reply::Opened(number))
        }
        Ok(None) => Ok(Reply::Full),
        Err(error) => Err(error),
    }
}

/// Sends the window of a new channel the focus, if it has it at once. Takes no memory.
fn welcome(routing: &mut Routing, number: u32, place: u64, clock: Moment)
    requires timely { IsTimely clock routing.old.channels }
    requires room { IsWelcome number routing.old.channels }
    ensures { Welcomes number place clock routing.old routing.new }
{
    let target = routing.focus.target().unwrap_or(0);
    let windows = focusable(routing.shown.windows(), routing.channels.live());
    let change = routing.focus.windows(windows);
    let round = Round {
        mark: Mark::NoOp,
        motion: None,
        gift: None,
        watchers: 0,
        target,
        keys: &[],
        lost: 0,
        gained: change.gained & mask_with(0, number),
    };
    let outgoing = listeners(&round, &routing.touches, &routing.channels);
    carry_out(routing, outgoing, &round, place, clock);
}

/// Replaces the windows.
pub(crate) fn show(
    routing: &mut Routing,
    snapshot: &Snapshot,
    place: u64,
    clock: Moment,
) -> Result<Reply, AllocError>
    requires { IsTimely clock routing.old.channels }
    ensures ok { IfOk result
        (λ answer. Goes (λ now. Windows now snapshot.now) answer place clock routing.old routing.new) }
    ensures err { OnErr result (SameButRoom routing.old routing.new) }
{
    let windows = snapshot.copy()?;
    let stays = staying(routing.shown.windows(), &windows);
    let mut focus = routing.focus;
    let change = focus.windows(focusable(&windows, routing.channels.live()));
    refocus(routing, Mark::Unnamed { stays }, &change, place, clock)?;
    routing.focus = focus;
    routing.shown.show(windows);
    Ok(Reply::Done)
}

/// Requests the focus of a display for a channel, or for none, and takes keys along if it is to.
pub(crate) fn request(
    routing: &mut Routing,
    display: DisplayId,
    channel: Option<u32>,
    keys: bool,
    place: u64,
    clock: Moment,
) -> Result<Reply, AllocError>
    requires { IsTimely clock routing.old.channels }
    ensures ok { IfOk result
        (λ answer. Goes (λ now. FocusOn now display channel keys) answer place clock routing.old routing.new) }
    ensures err { OnErr result (SameButRoom routing.old routing.new) }
    ensures calm { (display < 4 → LeavesFocus display channel keys routing.old.focus) → IsOk result }
{
    let mut focus = routing.focus;
    let change = focus.request(display, channel, keys);
    // Read only for its clause: a display has one of the numbers 0 to 3, which contracts cannot see from the type.
    let _number = display.get();
    refocus(routing, Mark::NoOp, &change, place, clock)?;
    routing.focus = focus;
    Ok(Reply::Done)
}

/// Sends the key target the cancels of its keys, if it is no longer the key target, and sends windows that they lost
/// the focus or have it now.
fn refocus(
    routing: &mut Routing,
    mark: Mark,
    change: &Change,
    place: u64,
    clock: Moment,
) -> Result<(), AllocError>
    requires whole { IsWhole mark }
    requires timely { IsTimely clock routing.old.channels }
    ensures ok { OnOk result
        (CarriesSome mark (lost_keys routing.old.focus change.now.target routing.old.channels) change.now.lost
        change.now.gained place clock routing.old routing.new) }
    ensures err { OnErr result (SameButRoom routing.old routing.new) }
    ensures calm { IsSilent mark [] change.now → change.now.target ≡ target_of routing.old.focus → IsOk result }
{
    let mut keys = routing.cancelled.take();
    let outgoing = send_change(routing, &mut keys, mark, change, place, clock);
    routing.cancelled.keep(keys);
    outgoing
}

/// Does the same with a list for the cancelled keys.
fn send_change(
    routing: &mut Routing,
    keys: &mut Vec<KeyMsg>,
    mark: Mark,
    change: &Change,
    place: u64,
    clock: Moment,
) -> Result<(), AllocError>
    requires whole { IsWhole mark }
    requires timely { IsTimely clock routing.old.channels }
    ensures ok { OnOk result
        (CarriesSome mark (lost_keys routing.old.focus change.now.target routing.old.channels) change.now.lost
        change.now.gained place clock routing.old routing.new) }
    ensures err { OnErr result (SameButRoom routing.old routing.new) }
    ensures calm { IsSilent mark [] change.now → change.now.target ≡ target_of routing.old.focus → IsOk result }
    ensures list { vec_capacity keys.old ≤ vec_capacity keys.new }
{
    match listening(routing) {
        Some(target) if change.target != Some(target) => {
            routing.channels.input(target).cancel_keys_into(keys)?;
            send_still(routing, mark, keys.as_slice(), change, place, clock)
        }
        _ => send_still(routing, mark, &[], change, place, clock),
    }
}
