//! Steps that are made and explained. If memory runs out, a part of the lines may have been added.
ghost use Rattle.dispatch_calls.specs.declared.call.Call.TheVariants.{Finish, Open, Pilfer, Pump, Remove, Tick};
ghost use Rattle.why_lines.specs.Explaining.{ExplainsCall, MakesAsSaid};

use crate::calls::{after_call, take_step};
use crate::error::OutOfMemory;
use crate::focuses::{add_changes, all_focused};
use crate::losing::add_removal;
use crate::owners::{add_finish, add_pilfer};
use crate::pumps::add_pump;
use crate::ticks::add_tick;
use dispatch_calls::{Call, Terms};
use dispatcher::Dispatcher;
use input_types::{DeviceId, Moment};

/// Makes a pump, and adds its lines.
pub(crate) fn pump(
    lines: &mut Vec<u8>,
    dispatcher: &mut Dispatcher,
    now: Moment,
) -> Result<(), OutOfMemory>
    ensures known { ExplainsCall result (Pump now) lines.old.items lines.new.items dispatcher.old dispatcher.new }
    ensures made { MakesAsSaid result (Pump now) dispatcher.old dispatcher.new }
{
    let clock = now.later(dispatcher.clock());
    add_pump(lines, clock, dispatcher)?;
    dispatcher.pump(now)?;
    Ok(())
}

/// Makes a tick, and adds a line for each window that it reports, with what the window loses.
pub(crate) fn tick(
    lines: &mut Vec<u8>,
    dispatcher: &mut Dispatcher,
    now: Moment,
) -> Result<(), OutOfMemory>
    ensures known { ExplainsCall result (Tick now) lines.old.items lines.new.items dispatcher.old dispatcher.new }
    ensures made { MakesAsSaid result (Tick now) dispatcher.old dispatcher.new }
{
    let clock = now.later(dispatcher.clock());
    add_tick(lines, clock, dispatcher)?;
    take_step(dispatcher, &Call::Tick { now })?;
    Ok(())
}

/// Makes a pilfer by a channel of a device, and adds its line.
pub(crate) fn pilfer(
    lines: &mut Vec<u8>,
    dispatcher: &mut Dispatcher,
    now: Moment,
    channel: u32,
    device: DeviceId,
) -> Result<(), OutOfMemory>
    ensures known { ExplainsCall result (Pilfer now channel device)
        lines.old.items lines.new.items dispatcher.old dispatcher.new }
    ensures made { MakesAsSaid result (Pilfer now channel device) dispatcher.old dispatcher.new }
{
    let clock = now.later(dispatcher.clock());
    add_pilfer(lines, clock, dispatcher, channel, device)?;
    take_step(
        dispatcher,
        &Call::Pilfer {
            now,
            channel,
            device,
        },
    )?;
    Ok(())
}

/// Makes a finish of a message of a channel, and adds its line, if the channel responds again.
pub(crate) fn finish(
    lines: &mut Vec<u8>,
    dispatcher: &mut Dispatcher,
    now: Moment,
    channel: u32,
    seq: u64,
) -> Result<(), OutOfMemory>
    ensures known { ExplainsCall result (Finish now channel seq)
        lines.old.items lines.new.items dispatcher.old dispatcher.new }
    ensures made { MakesAsSaid result (Finish now channel seq) dispatcher.old dispatcher.new }
{
    let clock = now.later(dispatcher.clock());
    let before = dispatcher.able();
    dispatcher.finish(now, channel, seq)?;
    let after = dispatcher.able();
    after_call(add_finish(lines, clock, channel, before, after))
}

/// Makes a removal of a channel, and adds its lines: what its window loses, and the changes of the focus.
pub(crate) fn remove(
    lines: &mut Vec<u8>,
    dispatcher: &mut Dispatcher,
    now: Moment,
    channel: u32,
) -> Result<(), OutOfMemory>
    ensures known { ExplainsCall result (Remove now channel)
        lines.old.items lines.new.items dispatcher.old dispatcher.new }
    ensures made { MakesAsSaid result (Remove now channel) dispatcher.old dispatcher.new }
{
    let clock = now.later(dispatcher.clock());
    let before = all_focused(dispatcher);
    add_removal(lines, clock, dispatcher, channel)?;
    dispatcher.remove(now, channel)?;
    let after = all_focused(dispatcher);
    after_call(add_changes(lines, clock, &before, &after))
}

/// Opens a channel on these terms, and adds the lines of the changes of the focus.
pub(crate) fn open(
    lines: &mut Vec<u8>,
    dispatcher: &mut Dispatcher,
    terms: Terms,
) -> Result<(), OutOfMemory>
    ensures known { ExplainsCall result (Open terms) lines.old.items lines.new.items dispatcher.old dispatcher.new }
    ensures made { MakesAsSaid result (Open terms) dispatcher.old dispatcher.new }
{
    let clock = Moment::zero().later(dispatcher.clock());
    let before = all_focused(dispatcher);
    take_step(dispatcher, &Call::Open { terms })?;
    let after = all_focused(dispatcher);
    after_call(add_changes(lines, clock, &before, &after))
}
