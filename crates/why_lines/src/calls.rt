//! Any call of a dispatcher, made and explained.
ghost use Rattle.std.specs.Prelude.{◌≡◌, ℕ, List, true, OnOk, OnErr};
ghost use Rattle.dispatch_calls.specs.declared.reply.Reply.{Reply as Answer};
ghost use Rattle.dispatch_history.specs.Effect.{Effect};
ghost use Rattle.dispatcher.specs.Answered.{StepsOn};
ghost use Rattle.dispatcher.specs.Dispatching.{StandsFor};
ghost use Rattle.why_text.specs.Laws.{is_silent};
ghost use Rattle.why_lines.specs.Explaining.{Explains, ExplainsCall, MakesAsSaid, after_call};

use crate::error::OutOfMemory;
use crate::requests::focus_on;
use crate::snapshots::windows;
use crate::steps::{finish, open, pilfer, pump, remove, tick};
use dispatch_calls::Call;
use dispatcher::Dispatcher;
use std::alloc::AllocError;

/// Makes a call without reading its reply. Out of memory changes nothing.
pub fn take_step(dispatcher: &mut Dispatcher, call: &Call) -> Result<(), AllocError>
    ensures ok { OnOk result (StepsOn call.now dispatcher.old dispatcher.new) }
    ensures err { OnErr result (dispatcher.new ≡ dispatcher.old) }
{
    match dispatcher.apply(call) {
        Ok(_) => Ok(()),
        Err(error) => Err(error),
    }
}

/// Says that a call was made, also where memory ran out after it.
pub(crate) fn after_call(written: Result<(), AllocError>) -> Result<(), OutOfMemory>
    ensures { result ≡ after_call written }
{
    match written {
        Ok(()) => Ok(()),
        Err(_) => Err(OutOfMemory::AfterCall),
    }
}

/// Makes a call that has no lines, whatever it is answered.
fn make(dispatcher: &mut Dispatcher, call: &Call) -> Result<(), OutOfMemory>
    requires { (answer : Answer) → is_silent call.now answer ≡ true }
    ensures known { (text : List ℕ) → ExplainsCall result call.now text text dispatcher.old dispatcher.new }
    ensures made { MakesAsSaid result call.now dispatcher.old dispatcher.new }
{
    take_step(dispatcher, call)?;
    Ok(())
}

/// Makes a call, and adds the lines of its step to the end of others.
fn explain(lines: &mut Vec<u8>, dispatcher: &mut Dispatcher, call: &Call) -> Result<(), OutOfMemory>
    ensures known { ExplainsCall result call.now lines.old.items lines.new.items dispatcher.old dispatcher.new }
    ensures made { MakesAsSaid result call.now dispatcher.old dispatcher.new }
{
    match call {
        Call::Open { terms } => open(lines, dispatcher, *terms),
        Call::Pump { now } => pump(lines, dispatcher, *now),
        Call::Tick { now } => tick(lines, dispatcher, *now),
        Call::Finish { now, channel, seq } => finish(lines, dispatcher, *now, *channel, *seq),
        Call::Pilfer {
            now,
            channel,
            device,
        } => pilfer(lines, dispatcher, *now, *channel, *device),
        Call::Remove { now, channel } => remove(lines, dispatcher, *now, *channel),
        Call::Windows { now, snapshot } => windows(lines, dispatcher, call, *now, snapshot),
        Call::FocusOn {
            now,
            display,
            channel,
            keys,
        } => focus_on(lines, dispatcher, *now, *display, *channel, *keys),
        Call::Notify { .. } | Call::Receive { .. } => make(dispatcher, call),
    }
}

/// Makes a call as [`apply`](Dispatcher::apply) does, and adds the lines of its step to the end of a text.
///
/// If memory runs out, the error says whether the call was made, and a part of its lines may have been added.
pub fn apply(
    text: &mut Vec<u8>,
    dispatcher: &mut Dispatcher,
    call: &Call,
) -> Result<(), OutOfMemory>
    ensures outgoing { (es : List Effect) → StandsFor es dispatcher.old
        → OnOk result
        (Explains call.now es dispatcher.old.displays text.old.items text.new.items dispatcher.new) }
    ensures known { ExplainsCall result call.now text.old.items text.new.items dispatcher.old dispatcher.new }
    ensures made { MakesAsSaid result call.now dispatcher.old dispatcher.new }
{
    explain(text, dispatcher, call)
}
