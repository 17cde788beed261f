//! What is released, so that nothing grows over weeks.
ghost use Rattle.std.specs.Prelude.{◌≡◌, List, Option};
ghost use Rattle.dispatch_history.specs.Effect.{Effect};
ghost use Rattle.dispatcher.specs.Dispatching.{StandsFor};
ghost use Rattle.live_input.specs.Releases.{AreReleasedBut, IsLiveChannel, is_tick, receives_from};
ghost use Rattle.live_input.specs.Standing.{AreReleased};

use dispatch_calls::Call;
use dispatcher::Dispatcher;

/// Releases, after a call, the message that it received and what a tick recorded.
pub(crate) fn release_after(dispatcher: &mut Dispatcher, call: &Call)
    ensures stays { (es : List Effect) → StandsFor es dispatcher.old → StandsFor es dispatcher.new }
    ensures displays { dispatcher.new.displays ≡ dispatcher.old.displays }
    ensures room { dispatcher.new.queue ≡ dispatcher.old.queue }
    ensures all { (es : List Effect) → StandsFor es dispatcher.old → IsLiveChannel (receives_from call.now) es
        → AreReleasedBut (receives_from call.now) (is_tick call.now) es dispatcher.old → AreReleased es dispatcher.new }
{
    if let Some(channel) = receives_from(call) {
        dispatcher.release(channel);
    } else if is_tick(call) {
        dispatcher.release_anrs();
    }
}

/// The channel from which a call receives, if it does.
fn receives_from(call: &Call) -> Option<u32>
    ensures { result ≡ receives_from call.now }
{
    match call {
        Call::Receive { channel } => Some(*channel),
        _ => None,
    }
}

/// Whether a call is a tick. No other call reports a channel unresponsive.
fn is_tick(call: &Call) -> bool
    ensures { result ≡ is_tick call.now }
{
    matches!(call, Call::Tick { .. })
}
