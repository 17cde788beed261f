//! Receives until a channel has nothing more.
ghost use Rattle.std.specs.Prelude.{◌≡◌, ◌<◌, ◌+◌, ℕ, Bool, true, IfOk, OnOk, OnErr, if◌then◌else◌};
ghost use Rattle.dispatch_core.specs.Recorded.{Recorded, history_of, IsSound};
ghost use Rattle.replay_actors.specs.Settling.{receives_from, owes_to};
ghost use Rattle.replay_actors.specs.Came.{Came, CameSome, unreceived};

use crate::pumping::CALLER;
use dispatch_calls::{Call, Reply};
use dispatch_core::Core;
use input_types::Moment;
use std::alloc::AllocError;

/// Receives once, and finishes the message if the owner finishes. Returns whether there was one.
fn receive(core: &mut Core, channel: u32, finishes: bool) -> Result<bool, AllocError>
    ensures came { (f : ℕ → Bool) (start : Recorded) → f channel ≡ finishes
        → Came f start (receives_from channel) core.old
        → IfOk result (λ more. Came f start (receives_from (if more then channel else channel + 1)) core.new) }
    ensures less { IfOk result (λ more. more ≡ true
        → unreceived core.new.displays (history_of core.new.entries) channel
        < unreceived core.old.displays (history_of core.old.entries) channel) }
    ensures err { (f : ℕ → Bool) (start : Recorded) → f channel ≡ finishes
        → Came f start (receives_from channel) core.old
        → OnErr result (CameSome f start core.new) }
    ensures sound { IsSound core.new }
{
    match core.apply(CALLER, Call::Receive { channel }) {
        Ok(reply) => match reply {
            Reply::Got(message) => {
                if finishes {
                    finish(core, channel, message.seq)?;
                }
                Ok(true)
            }
            _ => Ok(false),
        },
        Err(error) => Err(error),
    }
}

/// The finish of a message that was given.
fn finish(core: &mut Core, channel: u32, seq: u64) -> Result<(), AllocError>
    ensures came { (f : ℕ → Bool) (start : Recorded) → Came f start (owes_to channel seq) core.old
        → OnOk result (Came f start (receives_from channel) core.new) }
    ensures same { OnOk result (unreceived core.new.displays (history_of core.new.entries) channel
        ≡ unreceived core.old.displays (history_of core.old.entries) channel) }
    ensures err { OnErr result (core.new ≡ core.old) }
    ensures sound { IsSound core.new }
{
    let call = Call::Finish {
        now: Moment::zero(),
        channel,
        seq,
    };
    match core.apply(CALLER, call) {
        Ok(_) => Ok(()),
        Err(error) => Err(error),
    }
}

/// Receives until the channel has nothing more, and finishes each message that it gives, where its owner finishes.
pub(crate) fn receive_all(core: &mut Core, channel: u32, finishes: bool) -> Result<(), AllocError>
    ensures came { (f : ℕ → Bool) (start : Recorded) → f channel ≡ finishes
        → Came f start (receives_from channel) core.old
        → OnOk result (Came f start (receives_from (channel + 1)) core.new) }
    ensures err { (f : ℕ → Bool) (start : Recorded) → f channel ≡ finishes
        → Came f start (receives_from channel) core.old
        → OnErr result (CameSome f start core.new) }
    ensures sound { IsSound core.new }
{
    'receiving: while receive(core, channel, finishes)? {}
    Ok(())
}
