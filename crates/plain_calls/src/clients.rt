//! Opening and closing clients, and who is on a channel.
ghost use Rattle.std.specs.Prelude.{◌≡◌};
ghost use Rattle.plain_calls.specs.Calling.{Reads, Replies, ok_of, written};
ghost use Rattle.plain_calls.specs.Clients.{client_of, plain_client};
ghost use Rattle.plain_calls.specs.Coming.{Opened, Closed};
ghost use Rattle.plain_calls.specs.Numbers.{moment_of, flag};
ghost use Rattle.plain_calls.specs.Options.{AnswersUserData, options_of};
ghost use Rattle.plain_calls.specs.Replies.{open_status, close_status};
ghost use Rattle.live_input.specs.Seats.{is_open, user_data_of};
ghost use Rattle.plain_calls.specs.Asking.{client_on, AnswersClient};

use crate::client::{PlainClient, answer_client, plain_client};
use crate::numbers::{flag, moment_of};
use crate::options::PlainOptions;
use crate::replies::close_status;
use crate::status::{FULL, MEMORY, NOT_OPEN, OK, RANGE};
use live_input::{Limited, Live, OpenRefused};

/// Opens a client with options. `RANGE` if a number is out of its range, `FULL` if 64 are open, and `MEMORY` if memory
/// runs out; `client` then stays as it was.
pub fn open(live: &mut Limited, options: &PlainOptions, client: &mut PlainClient) -> u32
    ensures { Reads (options_of options.now) result ((live.new ≡ live.old) × (client.new ≡ client.old))
        (λ o. Replies open_status result (λ r. Opened o live.old live.new r
        × (client.new ≡ written plain_client (ok_of r) client.old))) }
{
    let Some(options) = options.read() else {
        return RANGE;
    };
    match live.open_with(&options) {
        Ok(opened) => {
            *client = plain_client(opened);
            OK
        }
        Err(OpenRefused::Full) => FULL,
        Err(OpenRefused::Memory) => MEMORY,
    }
}

/// Closes a client. `NOT_OPEN` if it is not open, and `MEMORY` if memory runs out: it is still open then, but may
/// have lost its window and its focus requests.
pub fn close(live: &mut Limited, now_us: u64, client: &PlainClient) -> u32
    ensures { Reads (moment_of now_us) result (live.new ≡ live.old)
        (λ now. Replies close_status result (Closed now (client_of client.now) live.old live.new)) }
{
    let Some(now) = moment_of(now_us) else {
        return RANGE;
    };
    close_status(live.close(now, client.read()))
}

/// Whether a client is open, as 1 or 0.
pub fn is_open(live: &Live, client: &PlainClient) -> u8
    ensures { result ≡ flag (is_open live.now.seats (client_of client.now)) }
{
    flag(live.is_open(client.read()))
}

/// The client that is open on a channel. `NOTHING` if none is.
pub fn client_at(live: &Live, channel: u32, client: &mut PlainClient) -> u32
    ensures { AnswersClient result (client_on live.now channel) client.old client.new }
{
    answer_client(live.client_at(channel), client)
}

/// The number that a client was opened with. `NOT_OPEN` if it is not open; `user_data` then stays as it was.
pub fn user_data(live: &Live, client: &PlainClient, user_data: &mut u64) -> u32
    ensures { AnswersUserData result (user_data_of live.now.seats (client_of client.now)) user_data.old user_data.new }
{
    answer_user_data(live.user_data(client.read()), user_data)
}

/// Writes the number that a client was opened with, if it is open.
fn answer_user_data(found: Option<u64>, user_data: &mut u64) -> u32
    ensures { AnswersUserData result found user_data.old user_data.new }
{
    match found {
        Some(found) => {
            *user_data = found;
            OK
        }
        None => NOT_OPEN,
    }
}
