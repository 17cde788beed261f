//! Keys: dispatched, cancelled by a reset of their device, and repeated.
ghost use Rattle.std.specs.Prelude.{◌≡◌, ◌≤◌, ℕ, suc, None, Some, true, OnOk, OnErr, IfOk, IsOk, IfSome, vec_capacity, if◌then◌else◌};
ghost use Rattle.input_types.specs.declared.message.Args.TheVariants.{Key as KeyOfDevice, Reset as ResetOf};
ghost use Rattle.dispatch_calls.specs.declared.reply.Reply.TheVariants.{Dispatched, Repeated, Idle};
ghost use Rattle.dispatch_history.specs.Reply.{is_due};
ghost use Rattle.dispatcher.specs.DispatchRound.Rounds.{IsTimely};
ghost use Rattle.dispatcher.specs.DispatchChannels.Table.{IsOpened};
ghost use Rattle.dispatcher.specs.Keying.{listening};
ghost use Rattle.dispatcher.specs.Roomy.{HasPumpRoom, IsRoomy};
ghost use Rattle.dispatcher.specs.Tables.{Pumps, SameButRoom, due_repeat};

use crate::carry::{no_change, send_key, send_still};
use crate::key_tables::sent_for_key;
use crate::tables::Routing;
use input_types::{DeviceId, KeyArgs, KeyMsg, Moment};
use route_split::Mark;
use std::alloc::AllocError;
use window_snapshot::mask_has;

/// The key target, if it is live.
pub(crate) fn listening(routing: &Routing) -> Option<u32>
    ensures value { result ≡ listening routing.now.focus routing.now.channels.live }
    ensures opened { IfSome result (λ t. IsOpened routing.now.channels t) }
{
    let target = routing.focus.target()?;
    let live = routing.channels.live();
    if mask_has(live, target) {
        Some(target)
    } else {
        None
    }
}

/// Dispatches a key.
pub(crate) fn route_key(
    routing: &mut Routing,
    key: &KeyArgs,
    place: u64,
    clock: Moment,
) -> Result<(), AllocError>
    requires { IsTimely clock routing.old.channels }
    ensures ok { OnOk result (Pumps (Some (KeyOfDevice key.now)) Dispatched place clock routing.old routing.new) }
    ensures err { OnErr result (SameButRoom routing.old routing.new) }
    ensures roomy { (n : ℕ) → HasPumpRoom (suc n) routing.old → IsOk result × HasPumpRoom n routing.new }
{
    let Some(target) = listening(routing) else {
        return Ok(());
    };
    let gets = mask_has(routing.channels.able(), target);
    match sent_for_key(key, gets, routing.channels.input(target).keys()) {
        Some(message) => send_key(routing, message, place, clock),
        None => Ok(()),
    }
}

/// Dispatches a reset: takes everything that is down on the device from all windows.
pub(crate) fn route_reset(
    routing: &mut Routing,
    device: DeviceId,
    place: u64,
    clock: Moment,
) -> Result<(), AllocError>
    requires { IsTimely clock routing.old.channels }
    ensures ok { OnOk result (Pumps (Some (ResetOf device)) Dispatched place clock routing.old routing.new) }
    ensures err { OnErr result (SameButRoom routing.old routing.new) }
    ensures roomy { (n : ℕ) → HasPumpRoom (suc n) routing.old → IsOk result × HasPumpRoom n routing.new }
{
    let mut keys = routing.cancelled.take();
    let outgoing = send_reset(routing, &mut keys, device, place, clock);
    routing.cancelled.keep(keys);
    outgoing
}

/// Does the same with a list for the cancelled keys.
fn send_reset(
    routing: &mut Routing,
    keys: &mut Vec<KeyMsg>,
    device: DeviceId,
    place: u64,
    clock: Moment,
) -> Result<(), AllocError>
    requires { IsTimely clock routing.old.channels }
    ensures ok { OnOk result (Pumps (Some (ResetOf device)) Dispatched place clock routing.old routing.new) }
    ensures err { OnErr result (SameButRoom routing.old routing.new) }
    ensures roomy { (n : ℕ) → IsRoomy (suc n) (vec_capacity keys.old) routing.old.channels
        → IsOk result × IsRoomy n (vec_capacity keys.old) routing.new.channels }
    ensures list { vec_capacity keys.old ≤ vec_capacity keys.new }
{
    let mark = Mark::Empty { device };
    let change = no_change(routing);
    let Some(target) = listening(routing) else {
        return send_still(routing, mark, &[], &change, place, clock);
    };
    routing
        .channels
        .input(target)
        .cancel_device_keys_into(device, keys)?;
    send_still(routing, mark, keys.as_slice(), &change, place, clock)
}

/// Whether a repeat is due at the clock.
fn is_due(due: Option<u64>, clock: Moment) -> bool
    ensures { result ≡ is_due due clock }
{
    match due {
        Some(at) => at <= clock.get(),
        None => false,
    }
}

/// When the next repeat of a held key is due, if any.
pub(crate) fn repeat_due(routing: &Routing) -> Option<u64>
    ensures { result ≡ due_repeat routing.now }
{
    let channel = routing.repeat.channel()?;
    routing.repeat.due(routing.channels.repeats(channel))
}

/// Repeats a held key, if that is due. No args wait. Returns whether it was due.
pub(crate) fn repeat(routing: &mut Routing, place: u64, clock: Moment) -> Result<bool, AllocError>
    requires { IsTimely clock routing.old.channels }
    ensures ok { IfOk result
        (λ is_due. Pumps None (if is_due then Repeated else Idle) place clock routing.old routing.new) }
    ensures err { OnErr result (SameButRoom routing.old routing.new) }
    ensures calm { OnErr result (is_due (due_repeat routing.old) clock ≡ true) }
    ensures roomy { (n : ℕ) → HasPumpRoom (suc n) routing.old → IsOk result × HasPumpRoom n routing.new }
{
    if !is_due(repeat_due(routing), clock) {
        return Ok(false);
    }
    let Some((_, message)) = routing.repeat.next() else {
        return Ok(true);
    };
    send_key(routing, message, place, clock)?;
    Ok(true)
}
