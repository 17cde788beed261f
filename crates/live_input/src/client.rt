//! Clients and their seats.
ghost use Rattle.std.specs.Prelude.{◌≡◌, true};
ghost use Rattle.dispatcher.specs.Access.{got};
ghost use Rattle.window_snapshot.specs.Mask.{is_channel};
ghost use Rattle.live_input.specs.Answers.{for_client, handed};
ghost use Rattle.live_input.specs.Seats.{is_open, is_of, is_held, seat_of, with_seat, number_of, client_of, taken_by, left_vacant};

use crate::options::Options;
use dispatch_calls::Reply;
use input_types::Message;
use window_snapshot::is_channel;

/// A client of a live service: a channel and a generation, since a channel has one client after another. Once closed, a
/// client is stale for good: no call mistakes it for a later client of its channel.
#[derive(Clone, Copy, Debug, PartialEq, Eq)]
pub struct Client {
    pub(crate) channel: u32,
    /// How many clients were opened up to and including this one, on any channel.
    pub(crate) generation: u64,
}

impl Client {
    /// The client with a channel and a generation, as [`channel`](Client::channel) and
    /// [`generation`](Client::generation) returned them. Any numbers may be given: each call checks whether the client
    /// is open.
    pub fn of(channel: u32, generation: u64) -> Client
        ensures { result ≡ record { channel = channel; generation = generation } }
    {
        Client {
            channel,
            generation,
        }
    }

    /// The number of its channel, from 1 to 64. In a mask, bit `channel - 1` stands for it.
    pub fn channel(&self) -> u32
        ensures { result ≡ self.now.channel }
    {
        self.channel
    }

    /// How many clients were opened up to and including this one, on any channel. No two clients of a service have the
    /// same.
    pub fn generation(&self) -> u64
        ensures { result ≡ self.now.generation }
    {
        self.generation
    }
}

/// What is kept of a channel: the generation of its open client, if there is one, how many of its messages came before
/// that client, and what the client was opened with.
#[derive(Clone, Copy, Debug, PartialEq, Eq)]
pub(crate) struct Seat {
    pub(crate) holder: Option<u64>,
    pub(crate) before: u64,
    pub(crate) options: Options,
}

impl Seat {
    /// Whether a client is open on it.
    pub(crate) fn is_held(&self) -> bool
        ensures { result ≡ is_held self.now }
    {
        self.holder.is_some()
    }

    /// The channel's number of the message that has this number for the client.
    pub(crate) fn number_of(&self, seq: u64) -> u64
        ensures { result ≡ number_of self.now seq }
    {
        self.before.saturating_add(seq)
    }

    /// The client's message in the reply to a receive.
    pub(crate) fn handed(&self, reply: &Reply) -> Option<Message>
        ensures { result ≡ handed self.now (got reply.now) }
    {
        match reply {
            Reply::Got(message) => Some(self.for_client(message)),
            _ => None,
        }
    }

    /// A message as the client receives it.
    fn for_client(&self, message: &Message) -> Message
        ensures { result ≡ for_client self.now message.now }
    {
        Message {
            seq: message.seq.saturating_sub(self.before),
            moment: message.moment,
            body: message.body,
        }
    }
}

/// The seat of a channel.
pub(crate) fn seat_of(seats: &[Seat; 64], channel: u32) -> Seat
    requires { is_channel channel ≡ true }
    ensures { result ≡ seat_of seats.now channel }
{
    seats[channel as usize - 1]
}

/// Whether a client is open.
pub(crate) fn is_open(seats: &[Seat; 64], client: Client) -> bool
    ensures { result ≡ is_open seats.now client }
{
    is_channel(client.channel) && is_of(client.generation, seat_of(seats, client.channel).holder)
}

/// Whether the holder has the generation.
fn is_of(generation: u64, holder: Option<u64>) -> bool
    ensures { result ≡ is_of generation holder }
{
    match holder {
        Some(held) => held == generation,
        None => false,
    }
}

/// The client of a generation on a channel.
pub(crate) fn client_of(channel: u32, holder: Option<u64>) -> Option<Client>
    ensures { result ≡ client_of channel holder }
{
    match holder {
        Some(generation) => Some(Client {
            channel,
            generation,
        }),
        None => None,
    }
}

/// Gives the seat of a channel to a client.
pub(crate) fn occupy(
    seats: &mut [Seat; 64],
    channel: u32,
    generation: u64,
    before: u64,
    options: Options,
)
    requires { is_channel channel ≡ true }
    ensures { seats.new ≡ with_seat channel (taken_by generation before options) seats.old }
{
    seats[channel as usize - 1] = Seat {
        holder: Some(generation),
        before,
        options,
    };
}

/// Vacates the seat of a channel.
pub(crate) fn vacate(seats: &mut [Seat; 64], channel: u32)
    requires { is_channel channel ≡ true }
    ensures { seats.new ≡ with_seat channel (left_vacant (seat_of seats.old channel).before) seats.old }
{
    let before = seat_of(seats, channel).before;
    seats[channel as usize - 1] = Seat {
        holder: None,
        before,
        options: Options::new(),
    };
}
