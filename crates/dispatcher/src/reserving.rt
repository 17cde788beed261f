//! Room for what pumps send.
ghost use Rattle.std.specs.Prelude.{◌≡◌, ◌≤◌, ◌<◌, ◌+◌, ◌*◌, ◌^◌, true, OnOk, OnErr, IfOk, IsOk};
ghost use Rattle.window_snapshot.specs.Mask.{mask_has};
ghost use Rattle.dispatcher.specs.DispatchChannels.Table.{IsOpened, channel_of, input_of};
ghost use Rattle.dispatcher.specs.Roomy.{HasPumpRoom, HasRoomFor, KeepsPromise};
ghost use Rattle.dispatcher.specs.Queueing.{with_room};
ghost use Rattle.dispatcher.specs.Tables.{SameButRoom};

use crate::tables::{Routing, Tables};
use std::alloc::AllocError;
use window_snapshot::mask_has;

/// How many messages `n` pumps may send a window with this many keys, with all of its keys cancelled.
fn needed(n: u32, keys: usize) -> Result<u32, AllocError>
    ensures value { IfOk result (λ k. k ≡ 131 * n + keys) }
    ensures small { IfOk result (λ k. k < 2 ^ 31) }
{
    if keys > 0x7fff_ffff {
        return Err(AllocError);
    }
    let count = 131 * u64::from(n) + keys as u64;
    if count > 0x7fff_ffff {
        return Err(AllocError);
    }
    Ok(count as u32)
}

/// Makes room in a channel, if it is live, and in the list of cancelled keys.
fn reserve_one(routing: &mut Routing, n: u32, channel: u32) -> Result<(), AllocError>
    requires { IsOpened routing.old.channels channel }
    ensures same { SameButRoom routing.old routing.new }
    ensures ok { OnOk result (mask_has routing.new.channels.live channel ≡ true → HasRoomFor n routing.new.cancelled
        (channel_of routing.new.channels channel) (input_of routing.new.channels channel)) }
{
    if !mask_has(routing.channels.live(), channel) {
        return Ok(());
    }
    // Read only for its clause: the list of what is kept of windows is as long as that of the channels.
    let _opened = routing.channels.opened();
    let keys = routing.channels.input(channel).keys().len();
    let count = needed(n, keys)?;
    routing.channels.reserve(channel, count)?;
    routing.cancelled.reserve(keys + n as usize)
}

/// Makes room for what `n` pumps send. Nothing but the room changes, with or without memory.
pub(crate) fn reserve_pumps(routing: &mut Routing, n: u32) -> Result<(), AllocError>
    ensures same { SameButRoom routing.old routing.new }
    ensures ok { OnOk result (HasPumpRoom n routing.new) }
{
    let opened = routing.channels.opened();
    // Read only for its clause: each live channel was opened.
    let _live = routing.channels.live();
    'channels: for place in 0..opened {
        reserve_one(routing, n, place + 1)?;
    }
    Ok(())
}

/// Makes room for `n` args and `n` pumps. If memory runs out, only room changes that contracts do not see.
pub(crate) fn reserve(tables: &mut Tables, n: u32) -> Result<(), AllocError>
    ensures ok { OnOk result (tables.new.queueing ≡ with_room n tables.old.queueing) }
    ensures err { OnErr result (tables.new.queueing ≡ tables.old.queueing) }
    ensures same { SameButRoom tables.old.routing tables.new.routing }
    ensures reserved { n ≤ tables.old.queueing.spare → n ≤ tables.old.queueing.pumps → IsOk result }
    ensures promise { KeepsPromise tables.old → KeepsPromise tables.new }
{
    let pumps = tables.queueing.pumps();
    if pumps < n {
        reserve_pumps(&mut tables.routing, n)?;
    }
    tables.queueing.reserve(n)?;
    tables.queueing.set_pumps(pumps.max(n));
    Ok(())
}
