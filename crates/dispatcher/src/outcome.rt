//! The results of calls whose reply has no message.
ghost use Rattle.std.specs.Prelude.{◌≡◌};
ghost use Rattle.dispatcher.specs.Outcomes.{reply_of, replied};

use dispatch_calls::Reply;
use std::alloc::AllocError;

/// The result of `Notify`, `Pump`, `Finish` or `Remove`. A `Reply` is as large as a message; this is a few words, and
/// costs nothing if nobody reads it.
#[derive(Clone, Copy)]
pub enum Outcome {
    /// The args wait to be dispatched.
    Taken,
    /// The args do not fit those accepted from their device before. `pointers` is the set of ids that are down on the
    /// device, as bits, and `key_down` says for a key whether its scan code is down.
    Inconsistent { pointers: u32, key_down: bool },
    /// The first args that waited were dispatched.
    Dispatched,
    /// None waited, and a key that is held was repeated.
    Repeated,
    /// None waited, and no repeat was due.
    Idle,
    /// The channel was never opened, or was removed.
    Gone,
    /// The call did what was asked.
    Done,
    /// The message was not received, or is finished already.
    UnknownSeq,
}

/// The reply with this result.
fn reply_of(outcome: Outcome) -> Reply
    ensures { result ≡ reply_of outcome }
{
    match outcome {
        Outcome::Taken => Reply::Taken,
        Outcome::Inconsistent { pointers, key_down } => Reply::Inconsistent { pointers, key_down },
        Outcome::Dispatched => Reply::Dispatched,
        Outcome::Repeated => Reply::Repeated,
        Outcome::Idle => Reply::Idle,
        Outcome::Gone => Reply::Gone,
        Outcome::Done => Reply::Done,
        Outcome::UnknownSeq => Reply::UnknownSeq,
    }
}

/// The same of a call that may have run out of memory.
pub(crate) fn replied(outcome: Result<Outcome, AllocError>) -> Result<Reply, AllocError>
    ensures { result ≡ replied outcome }
{
    Ok(reply_of(outcome?))
}
