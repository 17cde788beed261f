//! Clients in plain numbers.
ghost use Rattle.std.specs.Prelude.{◌≡◌};
ghost use Rattle.plain_calls.specs.Clients.{client_of, plain_client, maybe_client};
ghost use Rattle.plain_calls.specs.Asking.{AnswersClient};

use crate::status::{NOTHING, OK};
use live_input::Client;

/// A client: `struct inputflinger_client`. Any numbers may be handed in; those of a client that is not open are
/// refused.
#[repr(C)]
#[derive(Clone, Copy, Debug)]
pub struct PlainClient {
    /// How many clients were opened up to and including this one, on any channel.
    pub generation: u64,
    /// 1 to 64. In a mask, bit `channel - 1` stands for it.
    pub channel: u32,
}

impl PlainClient {
    /// The client that the numbers stand for.
    pub(crate) fn read(&self) -> Client
        ensures { result ≡ client_of self.now }
    {
        Client::of(self.channel, self.generation)
    }

    /// The client, or none if the channel is 0.
    pub(crate) fn read_if_any(&self) -> Option<Client>
        ensures { result ≡ maybe_client self.now }
    {
        if self.channel == 0 {
            None
        } else {
            Some(self.read())
        }
    }
}

/// A client by its numbers.
pub(crate) fn plain_client(client: Client) -> PlainClient
    ensures { result ≡ plain_client client }
{
    PlainClient {
        generation: client.generation(),
        channel: client.channel(),
    }
}

/// Writes a client, if there is one. Answers `NOTHING` if there is none; `client` then stays as it was.
pub(crate) fn answer_client(found: Option<Client>, client: &mut PlainClient) -> u32
    ensures { AnswersClient result found client.old client.new }
{
    match found {
        Some(found) => {
            *client = plain_client(found);
            OK
        }
        None => NOTHING,
    }
}
