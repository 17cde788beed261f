//! The next message of any client, in the order in which the service sent them.
ghost use Rattle.std.specs.Prelude.{◌≡◌, ◌+◌, ◌≤◌, ℕ, true, List, Option, Some, None, option_copied, IfSome, OnErr, IsOk, not};
ghost use Rattle.dispatch_history.specs.Effect.{Effect};
ghost use Rattle.dispatcher.specs.Memory.{MayCount};
ghost use Rattle.window_snapshot.specs.Mask.{is_channel};
ghost use Rattle.live_input.specs.Answers.{SameClients};
ghost use Rattle.live_input.specs.HandingOut.{HandsOut, handed_as};
ghost use Rattle.live_input.specs.Order.{IsReady, is_before, motion_rank, next_any, place, rank, same_step, sooner};
ghost use Rattle.live_input.specs.OrderLaws.{ClientsLaw, EarliestLaw, NoneLaw};
ghost use Rattle.live_input.specs.Standing.{LiveIs};

use crate::client::Client;
use crate::live::Live;
use crate::steps::Steps;
use dispatcher::Dispatcher;
use input_types::{Body, Message, MotionAction};
use std::alloc::AllocError;

/// A message that is handed out, with its client.
#[derive(Clone, Copy, Debug, PartialEq, Eq)]
pub struct Handed {
    pub client: Client,
    pub message: Message,
    /// Whether no message of the same step is left to hand out now.
    pub last: bool,
}

/// Where a message stands in the order: the step at which it was published, and its rank within the step.
#[derive(Clone, Copy, Debug, PartialEq, Eq)]
pub(crate) struct Place {
    pub(crate) step: u64,
    pub(crate) rank: u8,
}

/// A channel, and where its next message stands.
#[derive(Clone, Copy, Debug, PartialEq, Eq)]
pub(crate) struct First {
    pub(crate) channel: u32,
    pub(crate) place: Place,
}

impl Live {
    /// Receives the next message of any client, in the order in which the service sent them; the service releases it.
    /// None if no client has one. Each client gets the messages that [`next`](Live::next) would hand it, in the same
    /// order.
    ///
    /// The messages of an earlier call of the dispatcher come first. Of one call, motions come before keys, and keys
    /// before the focus; of each, what ends comes first, then what goes on, then what begins; and then the lesser
    /// channel comes first. A message that had to wait, because 64 messages of its client were unfinished, counts as
    /// sent by the finish that published it. If memory runs out, nothing changes; that happens only if the calls can no
    /// longer be counted in 64 bits.
    pub fn next_any(&mut self) -> Result<Option<Handed>, AllocError>
        ensures hands { (ds : List ℕ) (es : List Effect) → LiveIs ds es self.old
            → HandsOut ds es result self.old self.new }
        ensures clients { SameClients self.old self.new }
        ensures named { self.new.reported ≡ self.old.reported }
        ensures clock { self.new.clock ≡ self.old.clock }
        ensures err { OnErr result (self.new ≡ self.old) }
        ensures calm { (ds : List ℕ) (es : List Effect) → LiveIs ds es self.old → MayCount es → IsOk result }
    {
        if self.steps.made == u64::MAX {
            return Err(AllocError);
        }
        let Some(first) = soonest(&self.dispatcher, &self.steps) else {
            return Ok(None);
        };
        let Some(client) = self.client_at(first.channel) else {
            return Ok(None);
        };
        match self.next(client) {
            Ok(message) => Ok(self.with_client(client, first.place, message)),
            Err(error) => Err(error),
        }
    }

    /// What is handed out with a message that a client received from this place.
    fn with_client(&self, client: Client, from: Place, message: Option<Message>) -> Option<Handed>
        ensures { (es : List Effect) → IsReady es self.now.dispatcher self.now.steps
            → result ≡ handed_as client (not (same_step from (next_any es))) message }
    {
        match message {
            Some(message) => Some(Handed {
                client,
                message,
                last: !same_step(from, soonest(&self.dispatcher, &self.steps)),
            }),
            None => None,
        }
    }
}

/// The channel whose next message comes first.
fn soonest(dispatcher: &Dispatcher, steps: &Steps) -> Option<First>
    ensures { (es : List Effect) → IsReady es dispatcher.now steps.now → result ≡ next_any es }
{
    let mut first = None;
    for index in 0..dispatcher.opened() {
        let channel = index + 1;
        first = sooner(first, channel, place_of(dispatcher, steps, channel));
    }
    first
}

/// Where the next message of a channel stands.
fn place_of(dispatcher: &Dispatcher, steps: &Steps, channel: u32) -> Option<Place>
    requires { is_channel channel ≡ true }
    ensures { (es : List Effect) → IsReady es dispatcher.now steps.now → result ≡ place es channel }
{
    match dispatcher.next(channel) {
        Some(message) => Some(Place {
            step: steps.of(channel, message.seq),
            rank: rank(&message.body),
        }),
        None => None,
    }
}

/// The one of two channels whose next message comes first, and the first one at equal places.
fn sooner(first: Option<First>, channel: u32, place: Option<Place>) -> Option<First>
    ensures { result ≡ sooner first channel place }
{
    match (first, place) {
        (_, None) => first,
        (None, Some(place)) => Some(First { channel, place }),
        (Some(other), Some(place)) => {
            if is_before(place, other.place) {
                Some(First { channel, place })
            } else {
                Some(other)
            }
        }
    }
}

/// Whether a place comes before another.
fn is_before(place: Place, other: Place) -> bool
    ensures { result ≡ is_before place other }
{
    place.step < other.step || place.step == other.step && place.rank < other.rank
}

/// Whether a place is of the same step as the one that comes first.
fn same_step(place: Place, first: Option<First>) -> bool
    ensures { result ≡ same_step place first }
{
    match first {
        Some(first) => place.step == first.place.step,
        None => false,
    }
}

/// The rank of a message within its step.
fn rank(body: &Body) -> u8
    ensures { result ≡ rank body.now }
{
    match body {
        Body::Motion(motion) => motion_rank(motion.action),
        Body::Key(key) => { if key.key.down { 4 } else { 3 } }
        Body::Focus(has) => { if *has { 6 } else { 5 } }
    }
}

/// The rank of a motion: a pointer, or all of them, ends by it; or they go on; or one begins.
fn motion_rank(action: MotionAction) -> u8
    ensures { result ≡ motion_rank action }
{
    match action {
        MotionAction::Up | MotionAction::PointerUp | MotionAction::Cancel => 0,
        MotionAction::Move | MotionAction::Outside => 1,
        MotionAction::Down | MotionAction::PointerDown => 2,
    }
}

/// What is handed out is the earliest message that waits; nothing is handed out only if nothing waits; and each client
/// gets its messages in its own order. The function does nothing.
pub fn laws()
    ensures none { NoneLaw }
    ensures earliest { EarliestLaw }
    ensures clients { ClientsLaw }
{}
