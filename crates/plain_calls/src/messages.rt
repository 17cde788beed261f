//! What clients receive and finish.
ghost use Rattle.std.specs.Prelude.{◌≡◌};
ghost use Rattle.plain_calls.specs.Calling.{Reads, Replies, written};
ghost use Rattle.plain_calls.specs.Clients.{client_of};
ghost use Rattle.plain_calls.specs.Getting.{AreWaiting, Received, Finished, Pilfered};
ghost use Rattle.plain_calls.specs.Numbers.{moment_of, device_of};
ghost use Rattle.plain_calls.specs.Replies.{next_status, message_in, finish_status, pilfer_status};
ghost use Rattle.plain_calls.specs.Told.{told_to};

use crate::client::PlainClient;
use crate::message::PlainMessage;
use crate::numbers::{device_of, moment_of};
use crate::replies::{finish_status, pilfer_status};
use crate::status::{MEMORY, NOTHING, OK, RANGE};
use live_input::{Limited, Live};

/// Receives the next message of a client. `NOTHING` if there is none, or if the client is not open; `MEMORY` if the
/// calls can no longer be counted in 64 bits. `message` then stays as it was.
pub fn next(live: &mut Limited, client: &PlainClient, message: &mut PlainMessage) -> u32
    ensures { Replies next_status result (λ r. Received (client_of client.now) live.old live.new r
        × (message.new ≡ written (told_to live.old.live.seats (client_of client.now)) (message_in r) message.old)) }
{
    let client = client.read();
    let user_data = live.live().user_data(client);
    match live.next(client) {
        Ok(Some(told)) => {
            *message = PlainMessage::to(&told, user_data);
            OK
        }
        Ok(None) => NOTHING,
        Err(_) => MEMORY,
    }
}

/// A client finishes a message that it received. `NOT_OPEN` if it is not open, and `UNKNOWN_SEQ` if it did not
/// receive the message or finished it already.
pub fn finish(live: &mut Limited, now_us: u64, client: &PlainClient, seq: u64) -> u32
    ensures { Reads (moment_of now_us) result (live.new ≡ live.old)
        (λ now. Replies finish_status result (Finished now (client_of client.now) seq live.old live.new)) }
{
    let Some(now) = moment_of(now_us) else {
        return RANGE;
    };
    finish_status(live.finish(now, client.read(), seq))
}

/// A client whose window is a spy takes the pointers of a device that it holds from all other windows.
pub fn pilfer(live: &mut Limited, now_us: u64, client: &PlainClient, device: u8) -> u32
    ensures { Reads (moment_of now_us) result (live.new ≡ live.old)
        (λ now. Reads (device_of device) result (live.new ≡ live.old)
        (λ d. Replies pilfer_status result (Pilfered now (client_of client.now) d live.old live.new))) }
{
    let Some(now) = moment_of(now_us) else {
        return RANGE;
    };
    let Some(device) = device_of(device) else {
        return RANGE;
    };
    pilfer_status(live.pilfer(now, client.read(), device))
}

/// The mask of the channels with a message for their client.
pub fn waiting(live: &Live) -> u64
    ensures { AreWaiting live.now result }
{
    live.waiting()
}
