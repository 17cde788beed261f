//! The channel.
ghost use Rattle.std.specs.Prelude.{◌≡◌, ◌+◌, ◌≤◌, ◌<◌, ◌↔◌, IsOk, IfOk, OnErr, OnOk, IsNone, is_ok};
ghost use Rattle.std.specs.Option.{option_copied};
ghost use Rattle.input_types.specs.declared.message.Body.TheVariants.{Key as KeyBody};
ghost use Rattle.dispatcher.specs.InputChannel.Order.{NoneAfter};
ghost use Rattle.dispatcher.specs.InputChannel.State.{IsChannel, opened_with, sent, enqueued, with_spare, published_at};
ghost use Rattle.dispatcher.specs.InputChannel.State.{next_of, received_one, received_next, received_uncopied, may_finish, finished_with};
ghost use Rattle.dispatcher.specs.InputChannel.Moves.{moves_from};
ghost use Rattle.dispatcher.specs.InputChannel.State.{oldest_of, has_late};

mod releasing;

use crate::input_channel::kept::Kept;
use crate::input_channel::unfinished::{MOST, Unfinished, deliver, place_of};
use arrayvec::ArrayVec;
use dispatch_calls::Terms;
use input_types::{Body, DeviceId, KeyMsg, Limit, Message, Moment, Pixel, Pointers};
use key_repeat::Repeats;
use std::alloc::{AllocError, Global};
use std::marker::Model;

/// The owner did not receive this message, or finished it already.
#[derive(Clone, Copy, Debug, PartialEq, Eq)]
pub struct UnknownSeq;

/// The messages to one window. They are numbered from 1 in the order in which they were enqueued.
#[derive(Drop)]
pub struct Channel {
    terms: Terms,
    kept: Kept,
    published: u64,
    received: u64,
    finished: u64,
    unfinished: ArrayVec<Unfinished, 64>,
}

impl Model for Channel {
    ghost use Rattle.dispatcher.specs.InputChannel.State.{ChannelState, IsChannel};

    ghost Value = { ChannelState };

    ghost use Rattle.dispatcher.specs.InputChannel.View.{state_of};

    ghost view = { state_of };

    ghost invariant = { λ c. IsChannel (state_of c) };
}

impl Channel {
    /// A channel without messages that is opened on these terms.
    pub fn new(alloc: Global, terms: Terms) -> Channel
        ensures { result ≡ opened_with terms }
    {
        Channel {
            terms,
            kept: Kept::new(alloc),
            published: 0,
            received: 0,
            finished: 0,
            unfinished: ArrayVec::new(),
        }
    }

    /// How long the owner may leave a message unfinished.
    pub fn limit(&self) -> Limit
        ensures { result ≡ self.now.terms.limit }
    {
        self.terms.limit
    }

    /// When a key that the window holds is repeated; None if never.
    pub fn repeats(&self) -> Option<Repeats>
        ensures { result ≡ self.now.terms.repeats }
    {
        self.terms.repeats
    }

    /// The messages that were not released.
    pub fn messages(&self) -> &[Message]
        ensures { result.now ≡ self.now.messages }
    {
        self.kept.messages()
    }

    /// How many messages were enqueued.
    pub fn sent(&self) -> u64
        ensures value { result ≡ sent self.now }
        ensures order { IsChannel self.now }
    {
        self.kept.sent()
    }

    /// How many messages are published.
    pub fn published(&self) -> u64
        ensures { result ≡ self.now.published }
    {
        self.published
    }

    /// How many messages the owner received.
    pub fn received(&self) -> u64
        ensures { result ≡ self.now.received }
    {
        self.received
    }

    /// How many messages the owner finished.
    pub fn finished(&self) -> u64
        ensures { result ≡ self.now.finished }
    {
        self.finished
    }

    /// Makes room, so that the next `n` calls of `enqueue` cannot run out of memory. If memory runs out, nothing
    /// changes.
    pub fn reserve(&mut self, n: u32) -> Result<(), AllocError>
        ensures ok { OnOk result (self.new ≡ with_spare n self.old) }
        ensures err { OnErr result (self.new ≡ self.old) }
        ensures reserved { n ≤ self.old.spare → IsOk result }
    {
        self.kept.reserve(n)
    }

    /// How many more messages there is room for.
    pub fn spare(&self) -> u32
        ensures { result ≡ self.now.spare }
    {
        self.kept.spare()
    }

    /// Makes room like `reserve`, and also counts any room beyond that. If memory runs out, nothing changes but that
    /// room.
    #[inline(always)]
    pub fn make_ready(&mut self, n: u32) -> Result<(), AllocError>
        ensures ok { OnOk result (n ≤ self.new.spare) }
        ensures same { self.new ≡ record self.old { spare = self.new.spare } }
        ensures more { self.old.spare ≤ self.new.spare }
        ensures reserved { n ≤ self.old.spare → IsOk result }
    {
        self.kept.make_ready(n)
    }

    /// Appends a message, and returns its number. If memory runs out, nothing changes; a channel whose numbers are at
    /// the end of their type reports this too.
    pub fn enqueue(&mut self, body: Body, moment: Moment) -> Result<u64, AllocError>
        ensures ok { IfOk result (λ n. (n ≡ sent self.old + 1) × (self.new ≡ enqueued body moment self.old)) }
        ensures err { OnErr result (self.new ≡ self.old) }
        ensures reserved { 1 ≤ self.old.spare → IsOk result }
    {
        self.reserve(1)?;
        Ok(self.enqueue_reserved(body, moment))
    }

    /// Does what `enqueue` does, for a message for which room was reserved. Takes no memory.
    pub fn enqueue_reserved(&mut self, body: Body, moment: Moment) -> u64
        requires { 1 ≤ self.old.spare }
        ensures number { result ≡ sent self.old + 1 }
        ensures state { self.new ≡ enqueued body moment self.old }
    {
        self.kept.push(body, moment)
    }

    /// Does the same for the Move of these pointers of a device, with these flags and with positions that count from an
    /// origin. The pointers go straight into the list of messages.
    pub fn enqueue_moves(
        &mut self,
        device: DeviceId,
        flags: u32,
        pointers: &Pointers,
        origin: Pixel,
        moment: Moment,
    )
        requires { 1 ≤ self.old.spare }
        ensures { self.new ≡ enqueued (moves_from origin device flags pointers.now) moment self.old }
    {
        self.kept
            .push_moves(device, flags, pointers, origin, moment);
    }

    /// Does the same for a key message.
    pub fn enqueue_key(&mut self, message: &KeyMsg, moment: Moment)
        requires { 1 ≤ self.old.spare }
        ensures { self.new ≡ enqueued (KeyBody message.now) moment self.old }
    {
        self.kept.push_key(message, moment);
    }

    /// Publishes all messages, as long as at most 64 are published and not finished. Takes no memory.
    ///
    /// No unfinished message may have been delivered after the clock.
    pub fn publish(&mut self, clock: Moment)
        requires { NoneAfter clock self.old.unfinished }
        ensures { self.new ≡ published_at clock self.old }
    {
        let room = (MOST - self.unfinished.len()) as u64;
        let count = room.min(self.kept.sent() - self.published);
        deliver(&mut self.unfinished, self.published, count, clock);
        self.published += count;
    }

    /// The next message for the owner, which stays the next one; None exactly if all published messages are received,
    /// or if one that was not received was released.
    pub fn next(&self) -> Option<&Message>
        ensures value { option_copied result ≡ next_of self.now }
        ensures none { self.now.gone ≤ self.now.received
            → (IsNone result ↔ (self.now.received ≡ self.now.published)) }
        ensures gone { self.now.received < self.now.gone → IsNone result }
        ensures order { IsChannel self.now }
    {
        if self.kept.gone() <= self.received && self.received < self.published {
            let place = (self.received - self.kept.gone()) as usize;
            Some(&self.kept.messages()[place])
        } else {
            None
        }
    }

    /// The owner receives the message that `next` lends.
    pub fn mark_received(&mut self)
        requires { self.old.received < self.old.published }
        ensures { self.new ≡ received_one self.old }
    {
        self.received += 1;
    }

    /// The owner receives the next message, if one is published that it did not receive. The message may have been
    /// released.
    pub fn receive_uncopied(&mut self)
        ensures { self.new ≡ received_uncopied self.old }
    {
        if self.received < self.published {
            self.received += 1;
        }
    }

    /// Hands the next message to the owner; None exactly if all published messages are received, or if one that was not
    /// received was released. Takes no memory.
    pub fn receive(&mut self) -> Option<Message>
        ensures value { result ≡ next_of self.old }
        ensures none { self.old.gone ≤ self.old.received
            → (IsNone result ↔ (self.old.received ≡ self.old.published)) }
        ensures state { self.new ≡ received_next self.old }
    {
        let message = *self.next()?;
        self.mark_received();
        Some(message)
    }

    /// The owner finishes a message. `UnknownSeq` comes exactly if the message is not received or is finished, and then
    /// nothing changes. Takes no memory.
    pub fn finish(&mut self, seq: u64) -> Result<(), UnknownSeq>
        ensures variant { is_ok result ≡ may_finish seq self.old }
        ensures ok { OnOk result (self.new ≡ finished_with seq self.old) }
        ensures err { OnErr result (self.new ≡ self.old) }
    {
        if self.received < seq {
            return Err(UnknownSeq);
        }
        let Some(place) = place_of(self.unfinished.as_slice(), seq) else {
            return Err(UnknownSeq);
        };
        self.unfinished.remove(place);
        self.finished += 1;
        Ok(())
    }

    /// The number and the delivery of the oldest published and unfinished message, which has the earliest delivery;
    /// None exactly if every published message is finished.
    pub fn oldest_unfinished(&self) -> Option<(u64, Moment)>
        ensures value { result ≡ oldest_of self.now }
        ensures order { IsChannel self.now }
    {
        let oldest = self.unfinished.as_slice().first()?;
        Some((oldest.seq, oldest.delivery))
    }

    /// Whether at this clock a published and unfinished message is late.
    pub fn has_late(&self, clock: Moment) -> bool
        ensures { result ≡ has_late clock self.now }
    {
        match self.unfinished.as_slice().first() {
            Some(oldest) => oldest.delivery.get() + self.terms.limit.get() <= clock.get(),
            None => false,
        }
    }
}
