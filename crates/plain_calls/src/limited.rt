//! The limit of unreceived messages.
ghost use Rattle.std.specs.Prelude.{◌≡◌};
ghost use Rattle.plain_calls.specs.Limited.{is_choked, with_most};
ghost use Rattle.plain_calls.specs.Clients.{client_of};
ghost use Rattle.plain_calls.specs.Numbers.{flag};

use crate::client::PlainClient;
use crate::numbers::flag;
use live_input::Limited;

/// Sets how many messages a client may leave unreceived.
pub fn set_most(live: &mut Limited, most: u64)
    ensures { live.new ≡ with_most most live.old }
{
    live.set_most(most);
}

/// Whether a client is open and choked, as 1 or 0.
pub fn is_choked(live: &Limited, client: &PlainClient) -> u8
    ensures { result ≡ flag (is_choked live.now (client_of client.now)) }
{
    flag(live.is_choked(client.read()))
}
