//! Finishing every message of a client up to one.
ghost use Rattle.std.specs.Prelude.{◌≡◌, ℕ, false, true, List, OnOk, OnErr, Err};
ghost use Rattle.dispatch_history.specs.Effect.{Effect};
ghost use Rattle.dispatch_history.specs.Legal.{answered};
ghost use Rattle.dispatcher.specs.Access.{is_opened};
ghost use Rattle.dispatcher.specs.Answered.{AnswersCalm};
ghost use Rattle.dispatcher.specs.Dispatching.{IsAfter};
ghost use Rattle.live_input.specs.Answers.{SameClients};
ghost use Rattle.live_input.specs.Seats.{IsHeld, is_open, seat_of, number_of};
ghost use Rattle.live_input.specs.Settling.{Settles};
ghost use Rattle.live_input.specs.Standing.{IsOfHeld, LiveIs, is_plain};
ghost use Rattle.live_input.specs.State.{latest};
ghost use Rattle.live_input.specs.Through.{FinishesThrough, Stops, ThroughLaw, has_received, next_through, through_call};

use crate::client::{Client, is_open, seat_of};
use crate::closing::oldest;
use crate::live::Live;
use crate::refused::FinishRefused;
use dispatch_calls::Call;
use dispatcher::Dispatcher;
use input_types::Moment;
use std::alloc::AllocError;

impl Live {
    /// A client finishes every message up to this one, those that it finished already left out. It must have received
    /// the message, or none if the number is 0. If it did not, nothing changes, not even the clock.
    pub fn finish_through(
        &mut self,
        now: Moment,
        client: Client,
        seq: u64,
    ) -> Result<(), FinishRefused>
        ensures stale { is_open self.old.seats client ≡ false
            → (result ≡ Err FinishRefused.NotOpen) × (self.new ≡ self.old) }
        ensures after { (ds : List ℕ) (es : List Effect) → LiveIs ds es self.old
            → is_open self.old.seats client ≡ true → FinishesThrough ds (latest now self.old) client.channel
            (number_of (seat_of self.old.seats client.channel) seq) es result self.old self.new }
        ensures clients { SameClients self.old self.new }
        ensures named { self.new.reported ≡ self.old.reported }
    {
        if !is_open(&self.seats, client) {
            return Err(FinishRefused::NotOpen);
        }
        let channel = client.channel;
        let last = seat_of(&self.seats, channel).number_of(seq);
        if !has_received(&self.dispatcher, channel, last) {
            return Err(FinishRefused::UnknownSeq);
        }
        let now = self.raise(now);
        match self.finish_all(now, channel, last) {
            Ok(()) => Ok(()),
            Err(_) => Err(FinishRefused::Memory),
        }
    }

    /// Finishes the published messages of a channel up to the last one.
    fn finish_all(&mut self, now: Moment, channel: u32, last: u64) -> Result<(), AllocError>
        ensures done { (ds : List ℕ) (es : List Effect) → LiveIs ds es self.old → IsHeld channel self.old.seats
            → OnOk result (Settles ds (next_through now channel last) es self.new) }
        ensures stops { (ds : List ℕ) (es : List Effect) → LiveIs ds es self.old → IsHeld channel self.old.seats
            → OnErr result (Stops ds (next_through now channel last) es self.new) }
        ensures rest { self.new ≡ record self.old { dispatcher = self.new.dispatcher; steps = self.new.steps } }
    {
        for made in 0..u64::MAX {
            let Some(call) = next_through(&self.dispatcher, now, channel, last) else {
                return Ok(());
            };
            self.make_calm(&call)?;
        }
        Err(AllocError)
    }

    /// Makes one call without reading its reply. If it needs no memory, it fails only if it can no longer be counted;
    /// nothing changes then.
    pub(crate) fn make_calm(&mut self, call: &Call) -> Result<(), AllocError>
        ensures after { (ds : List ℕ) (es : List Effect) → LiveIs ds es self.old → is_plain call.now ≡ true
            → IsOfHeld self.old.seats call.now → OnOk result (LiveIs ds (answered ds call.now es) self.new) }
        ensures rest { self.new ≡ record self.old { dispatcher = self.new.dispatcher; steps = self.new.steps } }
        ensures err { OnErr result (self.new ≡ self.old) }
        ensures calm { AnswersCalm call.now self.old.dispatcher result }
    {
        match self.apply(call) {
            Ok(_) => Ok(()),
            Err(error) => Err(error),
        }
    }
}

/// Whether the owner of a channel received so many messages.
fn has_received(dispatcher: &Dispatcher, channel: u32, last: u64) -> bool
    ensures { (es : List Effect) → IsAfter es dispatcher.now → is_opened es channel ≡ true
        → result ≡ has_received channel last es }
{
    match dispatcher.counts(channel) {
        Some(counts) => last <= counts.received,
        None => false,
    }
}

/// What is finished next of a channel's messages up to the last one.
fn next_through(dispatcher: &Dispatcher, now: Moment, channel: u32, last: u64) -> Option<Call>
    ensures { (es : List Effect) → IsAfter es dispatcher.now → is_opened es channel ≡ true
        → result ≡ next_through now channel last es }
{
    through_call(now, channel, last, oldest(dispatcher, channel))
}

/// The finish of a message, unless it is later than the last one.
fn through_call(now: Moment, channel: u32, last: u64, oldest: Option<u64>) -> Option<Call>
    ensures { result ≡ through_call now channel last oldest }
{
    match oldest {
        Some(seq) => {
            if seq <= last {
                Some(Call::Finish { now, channel, seq })
            } else {
                None
            }
        }
        None => None,
    }
}

/// After `finish_through` every message up to the last one is finished. The function does nothing.
pub fn laws()
    ensures { ThroughLaw }
{}
