//! Finishing every message of a client up to one.
ghost use Rattle.std.specs.Prelude.{◌≡◌};
ghost use Rattle.plain_calls.specs.Calling.{Reads, Replies};
ghost use Rattle.plain_calls.specs.Clients.{client_of};
ghost use Rattle.plain_calls.specs.Numbers.{moment_of};
ghost use Rattle.plain_calls.specs.Replies.{finish_status};
ghost use Rattle.plain_calls.specs.Through.{FinishedThrough};

use crate::client::PlainClient;
use crate::numbers::moment_of;
use crate::replies::finish_status;
use crate::status::RANGE;
use live_input::Limited;

/// A client finishes every message up to this one. `NOT_OPEN` if it is not open, and `UNKNOWN_SEQ` if it did not
/// receive the message: nothing changes then.
pub fn finish_through(live: &mut Limited, now_us: u64, client: &PlainClient, seq: u64) -> u32
    ensures { Reads (moment_of now_us) result (live.new ≡ live.old)
        (λ now. Replies finish_status result
        (FinishedThrough now (client_of client.now) seq live.old live.new)) }
{
    let Some(now) = moment_of(now_us) else {
        return RANGE;
    };
    finish_status(live.finish_through(now, client.read(), seq))
}
