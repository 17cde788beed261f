//! The next message of any client.
ghost use Rattle.std.specs.Prelude.{◌≡◌};
ghost use Rattle.plain_calls.specs.Calling.{Replies, written};
ghost use Rattle.plain_calls.specs.NextAny.{ReceivedAny, any_status, handed_in, plain_last, plain_owner, plain_told};

use crate::client::{PlainClient, plain_client};
use crate::message::PlainMessage;
use crate::numbers::flag;
use crate::status::{MEMORY, NOTHING, OK};
use live_input::Limited;

/// Receives the next message of any client, in the order in which the service sent them, and says whose it is and
/// whether it is the last one of its step. `NOTHING` if no client has one; `MEMORY` if the calls can no longer be
/// counted in 64 bits. `client`, `message` and `last` then stay as they were.
pub fn next_any(
    live: &mut Limited,
    client: &mut PlainClient,
    message: &mut PlainMessage,
    last: &mut u8,
) -> u32
    ensures { Replies any_status result (λ r. ReceivedAny live.old live.new r
        × (client.new ≡ written plain_owner (handed_in r) client.old)
        × (message.new ≡ written (plain_told live.new.live.seats) (handed_in r) message.old)
        × (last.new ≡ written plain_last (handed_in r) last.old)) }
{
    match live.next_any() {
        Ok(Some(handed)) => {
            *client = plain_client(handed.client);
            *message = PlainMessage::to(&handed.message, live.live().user_data(handed.client));
            *last = flag(handed.last);
            OK
        }
        Ok(None) => NOTHING,
        Err(_) => MEMORY,
    }
}
