//! What clients receive and finish.
ghost use Rattle.std.specs.Prelude.{◌≡◌, ◌+◌, ◌&&◌, ℕ, true, false, List, Option, None, Ok, Err, IfOk, IfSome, OnOk, OnErr, IsOk, is_some, if◌then◌else◌};
ghost use Rattle.dispatch_calls.specs.declared.call.Call.TheVariants.{Receive, Finish, Pilfer};
ghost use Rattle.dispatch_history.specs.Effect.{Effect, past_of};
ghost use Rattle.dispatch_history.specs.History.{received};
ghost use Rattle.dispatch_history.specs.Legal.{answered};
ghost use Rattle.dispatch_history.specs.Reply.{reply_to};
ghost use Rattle.dispatcher.specs.Access.{gone, got};
ghost use Rattle.dispatcher.specs.Dispatching.{StandsFor};
ghost use Rattle.dispatcher.specs.Memory.{MayCount};
ghost use Rattle.dispatcher.specs.Outcomes.{reply_of};
ghost use Rattle.window_snapshot.specs.Mask.{mask_has, mask_with, is_channel};
ghost use Rattle.live_input.specs.Answers.{SameClients, Finishes, Pilfers, handed, is_done, is_no_spy};
ghost use Rattle.live_input.specs.Receiving.{receives};
ghost use Rattle.live_input.specs.Seats.{is_open, seat_of, number_of};
ghost use Rattle.live_input.specs.Standing.{LiveIs};
ghost use Rattle.live_input.specs.State.{latest};
ghost use Rattle.live_input.specs.Outgoing.{taken};

use crate::client::{Client, is_open, seat_of};
use crate::live::Live;
use crate::refused::{FinishRefused, PilferRefused};
use dispatch_calls::{Call, Reply};
use dispatcher::{Dispatcher, Outcome};
use input_types::{DeviceId, Message, Moment};
use std::alloc::AllocError;
use window_snapshot::mask_with;

impl Live {
    /// Receives the next message of a client, which the service releases. None if there is none, or if the client is
    /// not open. Its number does not count the messages that its channel had before the client. A client that finishes
    /// by itself finishes the message too, at the clock. If memory runs out, nothing changes; that happens only if the
    /// calls can no longer be counted in 64 bits.
    pub fn next(&mut self, client: Client) -> Result<Option<Message>, AllocError>
        ensures stale { is_open self.old.seats client ≡ false → (result ≡ Ok None) × (self.new ≡ self.old) }
        ensures message { (ds : List ℕ) (es : List Effect) → LiveIs ds es self.old
            → is_open self.old.seats client ≡ true → IfOk result
            (λ m. m ≡ handed (seat_of self.old.seats client.channel) (got (reply_to es (Receive client.channel)))) }
        ensures after { (ds : List ℕ) (es : List Effect) → LiveIs ds es self.old
            → is_open self.old.seats client ≡ true → OnOk result
            (LiveIs ds (receives ds es self.old client.channel) self.new) }
        ensures numbers { (ds : List ℕ) (es : List Effect) → LiveIs ds es self.old
            → is_open self.old.seats client ≡ true → IfOk result (λ message. IfSome message
            (λ m. m.seq ≡ taken (seat_of self.old.seats client.channel) es client.channel + 1)) }
        ensures kept { (ds : List ℕ) (es : List Effect) → LiveIs ds es self.old
            → is_open self.old.seats client ≡ true → OnOk result (gone self.new.dispatcher client.channel
            ≡ received (past_of (answered ds (Receive client.channel) es)) client.channel) }
        ensures clients { SameClients self.old self.new }
        ensures named { self.new.reported ≡ self.old.reported }
        ensures clock { self.new.clock ≡ self.old.clock }
        ensures err { OnErr result (self.new ≡ self.old) }
        ensures calm { (ds : List ℕ) (es : List Effect) → LiveIs ds es self.old → MayCount es → IsOk result }
    {
        if !is_open(&self.seats, client) {
            return Ok(None);
        }
        let channel = client.channel;
        let seat = seat_of(&self.seats, channel);
        match self.apply(&Call::Receive { channel }) {
            Ok(reply) => {
                self.finish_received(channel, seat.options.finishes, &reply);
                Ok(seat.handed(&reply))
            }
            Err(error) => Err(error),
        }
    }

    /// A client finishes a message that it received.
    pub fn finish(&mut self, now: Moment, client: Client, seq: u64) -> Result<(), FinishRefused>
        ensures stale { is_open self.old.seats client ≡ false
            → (result ≡ Err FinishRefused.NotOpen) × (self.new ≡ self.old) }
        ensures after { (ds : List ℕ) (es : List Effect) → LiveIs ds es self.old
            → is_open self.old.seats client ≡ true → Finishes ds es
            (Finish (latest now self.old) client.channel (number_of (seat_of self.old.seats client.channel) seq))
            result self.old self.new }
        ensures clients { SameClients self.old self.new }
        ensures named { self.new.reported ≡ self.old.reported }
        ensures calm { (ds : List ℕ) (es : List Effect) → LiveIs ds es self.old → MayCount es
            → result ≡ Err FinishRefused.Memory → ⊥ }
    {
        if !is_open(&self.seats, client) {
            return Err(FinishRefused::NotOpen);
        }
        let now = now.later(self.clock);
        let channel = client.channel;
        let seq = seat_of(&self.seats, channel).number_of(seq);
        match self.finish_one(now, channel, seq) {
            Ok(outcome) => {
                self.clock = now;
                if is_finished(outcome) {
                    Ok(())
                } else {
                    Err(FinishRefused::UnknownSeq)
                }
            }
            Err(_) => Err(FinishRefused::Memory),
        }
    }

    /// A client whose window is a spy takes the pointers of a device that it holds from all other windows.
    pub fn pilfer(
        &mut self,
        now: Moment,
        client: Client,
        device: DeviceId,
    ) -> Result<(), PilferRefused>
        ensures stale { is_open self.old.seats client ≡ false
            → (result ≡ Err PilferRefused.NotOpen) × (self.new ≡ self.old) }
        ensures after { (ds : List ℕ) (es : List Effect) → LiveIs ds es self.old → is_open self.old.seats client ≡ true
            → Pilfers ds es (Pilfer (latest now self.old) client.channel device) result self.old self.new }
        ensures clients { SameClients self.old self.new }
        ensures named { self.new.reported ≡ self.old.reported }
    {
        if !is_open(&self.seats, client) {
            return Err(PilferRefused::NotOpen);
        }
        let now = now.later(self.clock);
        let channel = client.channel;
        match self.apply(&Call::Pilfer {
            now,
            channel,
            device,
        }) {
            Ok(reply) => {
                self.clock = now;
                if is_done(&reply) {
                    Ok(())
                } else if is_no_spy(&reply) {
                    Err(PilferRefused::NotSpy)
                } else {
                    Err(PilferRefused::NothingHeld)
                }
            }
            Err(_) => Err(PilferRefused::Memory),
        }
    }

    /// The mask of the channels with a message for their client: bit `channel - 1` stands for a channel.
    pub fn waiting(&self) -> u64
        ensures { (ds : List ℕ) (es : List Effect) → LiveIs ds es self.now
            → (c : ℕ) → mask_has result c ≡ (is_channel c && is_some (got (reply_to es (Receive c)))) }
    {
        waiting(&self.dispatcher)
    }
}

/// The mask of the channels that have a message.
fn waiting(dispatcher: &Dispatcher) -> u64
    ensures { (es : List Effect) → StandsFor es dispatcher.now
        → (c : ℕ) → mask_has result c ≡ (is_channel c && is_some (got (reply_to es (Receive c)))) }
{
    let mut mask = 0;
    for place in 0..64 {
        mask = with_waiting(dispatcher, mask, place + 1);
    }
    mask
}

/// The mask, with a channel added if it has a message.
fn with_waiting(dispatcher: &Dispatcher, mask: u64, channel: u32) -> u64
    ensures { (es : List Effect) → StandsFor es dispatcher.now
        → result ≡ (if is_some (got (reply_to es (Receive channel))) then mask_with mask channel else mask) }
{
    if dispatcher.next(channel).is_some() {
        mask_with(mask, channel)
    } else {
        mask
    }
}

/// Whether a message was finished.
fn is_finished(outcome: Outcome) -> bool
    ensures { result ≡ is_done (reply_of outcome) }
{
    matches!(outcome, Outcome::Done)
}

/// Whether a call succeeded.
fn is_done(reply: &Reply) -> bool
    ensures { result ≡ is_done reply.now }
{
    matches!(reply, Reply::Done)
}

/// Whether the shown windows have no spy of the channel.
fn is_no_spy(reply: &Reply) -> bool
    ensures { result ≡ is_no_spy reply.now }
{
    matches!(reply, Reply::NotSpy)
}
