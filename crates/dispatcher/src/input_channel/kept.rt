//! The messages of a channel that were not released.
ghost use Rattle.std.specs.Prelude.{◌≡◌, ◌+◌, ◌≤◌, ◌<◌, ◌^◌, ℕ, [], IsOk, OnErr, OnOk, drop, length, vec_len, vec_capacity};
ghost use Rattle.input_types.specs.declared.message.Body.{Body as BodyView};
ghost use Rattle.input_types.specs.declared.message.Body.TheVariants.{Key as KeyBody};
ghost use Rattle.dispatcher.specs.InputChannel.Kept.{sent_in, kept_with, kept_after, kept_empty, kept_none, kept_with_spare};
ghost use Rattle.dispatcher.specs.InputChannel.Moves.{moves_from};

use crate::input_channel::moves::push_moves;
use input_types::{Body, DeviceId, KeyArgs, KeyMsg, Message, Moment, Pixel, Pointers};
use std::alloc::{AllocError, Global};
use std::marker::Model;

/// The messages, in a list whose front may be released already. The front is dropped once it is at least half of the
/// list, so a release moves at most one message for each that is released.
#[derive(Drop)]
pub(crate) struct Kept {
    list: Vec<Message>,
    // How many messages at the front of the list are released.
    dropped: usize,
    // How many messages were released in all.
    gone: u64,
    // How many more messages the list has room for.
    spare: u32,
}

impl Model for Kept {
    ghost use Rattle.std.specs.Prelude.{drop, vec_len, vec_capacity};
    ghost use Rattle.dispatcher.specs.InputChannel.Kept.{KeptState, HasRoom};

    ghost Value = { KeptState };

    ghost view = { λ k. record { gone = k.gone; messages = drop k.dropped k.list.items; spare = k.spare } };

    ghost invariant = { λ k. HasRoom (vec_len k.list) (vec_capacity k.list) k.dropped k.gone k.spare };
}

impl Kept {
    /// No messages.
    pub(crate) fn new(alloc: Global) -> Kept
        ensures { result ≡ record { gone = 0; messages = []; spare = 0 } }
    {
        Kept {
            list: Vec::new(alloc),
            dropped: 0,
            gone: 0,
            spare: 0,
        }
    }

    /// How many messages there were, including the released ones.
    pub(crate) fn sent(&self) -> u64
        ensures { result ≡ sent_in self.now }
    {
        self.gone + (self.list.len() - self.dropped) as u64
    }

    /// How many messages were released.
    pub(crate) fn gone(&self) -> u64
        ensures { result ≡ self.now.gone }
    {
        self.gone
    }

    /// How many more messages there is room for.
    pub(crate) fn spare(&self) -> u32
        ensures { result ≡ self.now.spare }
    {
        self.spare
    }

    /// The messages.
    pub(crate) fn messages(&self) -> &[Message]
        ensures { result.now ≡ self.now.messages }
    {
        self.list.split_at(self.dropped).1
    }

    /// Makes room for at least `n` more messages.
    pub(crate) fn reserve(&mut self, n: u32) -> Result<(), AllocError>
        ensures ok { OnOk result (self.new ≡ kept_with_spare n self.old) }
        ensures err { OnErr result (self.new ≡ self.old) }
        ensures reserved { n ≤ self.old.spare → IsOk result }
    {
        if n <= self.spare {
            return Ok(());
        }
        // The numbers of the messages must not end before the room does.
        let sent = self.gone + (self.list.len() - self.dropped) as u64;
        if u64::MAX - sent < u64::from(n) {
            return Err(AllocError);
        }
        self.list.reserve(n as usize)?;
        self.spare = n;
        Ok(())
    }

    /// Makes room for at least `n` more messages, and counts all the room that there is then.
    pub(crate) fn make_ready(&mut self, n: u32) -> Result<(), AllocError>
        ensures ok { OnOk result (n ≤ self.new.spare) }
        ensures same { self.new ≡ record self.old { spare = self.new.spare } }
        ensures more { self.old.spare ≤ self.new.spare }
        ensures reserved { n ≤ self.old.spare → IsOk result }
    {
        if n <= self.spare {
            return Ok(());
        }
        self.reserve(n)?;
        let sent = self.gone + (self.list.len() - self.dropped) as u64;
        let free = (self.list.capacity() - self.list.len()) as u64;
        self.spare = least_of(free, u64::MAX - sent);
        Ok(())
    }

    /// Appends a message with the next number, and returns the number.
    pub(crate) fn push(&mut self, body: Body, moment: Moment) -> u64
        requires { 1 ≤ self.old.spare }
        ensures number { result ≡ sent_in self.old + 1 }
        ensures state { self.new ≡ kept_with body moment self.old }
    {
        let seq = self.gone + (self.list.len() - self.dropped) as u64 + 1;
        self.list.push_reserved(Message { seq, moment, body });
        self.spare -= 1;
        seq
    }

    /// Appends the Move of these pointers, with the next number and these flags, and with positions that count from an
    /// origin.
    pub(crate) fn push_moves(
        &mut self,
        device: DeviceId,
        flags: u32,
        pointers: &Pointers,
        origin: Pixel,
        moment: Moment,
    )
        requires { 1 ≤ self.old.spare }
        ensures { self.new ≡ kept_with (moves_from origin device flags pointers.now) moment self.old }
    {
        let seq = self.gone + (self.list.len() - self.dropped) as u64 + 1;
        push_moves(&mut self.list, seq, moment, device, flags, pointers, origin);
        self.spare -= 1;
    }

    /// Appends a key message with the next number.
    pub(crate) fn push_key(&mut self, message: &KeyMsg, moment: Moment)
        requires { 1 ≤ self.old.spare }
        ensures { self.new ≡ kept_with (KeyBody message.now) moment self.old }
    {
        let seq = self.gone + (self.list.len() - self.dropped) as u64 + 1;
        let body = Body::Key(copy_of(message));
        self.list.push_reserved(Message { seq, moment, body });
        self.spare -= 1;
    }

    /// Counts a message with the next number, and releases it at once. No other may be kept.
    pub(crate) fn count_past(&mut self)
        requires none { self.old.messages ≡ [] }
        requires room { 1 ≤ self.old.spare }
        ensures { (body : BodyView) (moment : ℕ) → self.new ≡ kept_empty (kept_with body moment self.old) }
    {
        self.gone += 1;
        self.spare -= 1;
    }

    /// Releases the first `count` messages.
    pub(crate) fn release(&mut self, count: usize)
        requires { count ≤ length self.old.messages }
        ensures { self.new ≡ kept_after count self.old }
    {
        self.dropped += count;
        self.gone += count as u64;
        if self.list.len() - self.dropped <= self.dropped {
            cut_front(&mut self.list, self.dropped);
            self.dropped = 0;
        }
    }

    /// Releases all messages, and keeps the room for more.
    pub(crate) fn release_each(&mut self)
        ensures { self.new ≡ kept_empty self.old }
    {
        self.gone += (self.list.len() - self.dropped) as u64;
        self.list.clear();
        self.dropped = 0;
    }

    /// Releases all messages, and gives back the memory of their list.
    pub(crate) fn release_all(&mut self)
        ensures { self.new ≡ kept_none self.old }
    {
        self.gone += (self.list.len() - self.dropped) as u64;
        self.list = Vec::new(*self.list.allocator());
        self.dropped = 0;
        self.spare = 0;
    }
}

/// Removes the first `n` messages of a list.
fn cut_front(list: &mut Vec<Message>, n: usize)
    requires { n ≤ vec_len list.old }
    ensures items { list.new.items ≡ drop n list.old.items }
    ensures len { vec_len list.new + n ≡ vec_len list.old }
    ensures capacity { vec_capacity list.new ≡ vec_capacity list.old }
{
    let len = list.len();
    list.copy_within(n..len, 0);
    list.truncate(len - n);
}

/// The lesser of two numbers, saturated at the greatest of the type.
fn least_of(a: u64, b: u64) -> u32
    ensures within_a { result ≤ a }
    ensures within_b { result ≤ b }
    ensures greatest { (n : ℕ) → n < 2 ^ 32 → n ≤ a → n ≤ b → n ≤ result }
{
    a.min(b).min(u64::from(u32::MAX)) as u32
}

/// A copy of a key message, field by field: so it is written where it goes, and not copied on the way.
fn copy_of(message: &KeyMsg) -> KeyMsg
    ensures { result ≡ message.now }
{
    let key = KeyArgs {
        device: message.key.device,
        scan: message.key.scan,
        code: message.key.code,
        meta: message.key.meta,
        down: message.key.down,
    };
    KeyMsg {
        key,
        flags: message.flags,
        repeat: message.repeat,
    }
}
