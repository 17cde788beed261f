//! The last key message, and when to repeat it.
ghost use Rattle.std.specs.Prelude.{◌≡◌, ◌≤◌, None, Some, option_map};
ghost use Rattle.key_repeat.specs.Due.{Sent as SentView, delay_after, due_of, is_repeated, next_of};

use crate::delays::Repeats;
use input_types::{KeyMsg, Moment};
use std::marker::Model;

/// A key message sent to a channel, and the clock at that time.
#[derive(Clone, Copy, Debug)]
struct Sent {
    channel: u32,
    key: KeyMsg,
    clock: Moment,
}

/// When a held key must be repeated. The last key message decides. The owner of this value calls `stop` when the
/// window that was sent the message no longer holds the key.
#[derive(Clone, Copy, Debug)]
pub struct Repeat {
    last: Option<Sent>,
}

impl Model for Repeat {
    ghost use Rattle.std.specs.Prelude.{Option, option_map};
    ghost use Rattle.key_repeat.specs.Due.{Sent as SentView};
    ghost use Rattle.key_repeat.specs.Last.{seen, kept, kept_seen};

    ghost Value = { Option SentView };

    ghost view = { λ r. seen r.last };

    ghost inverse = { λ s. record { last = kept s } };

    ghost inverse_ok = { λ r h i. record { last = kept_seen r.last i } };
}

fn delay(delays: Repeats, repeat: u32) -> u64
    ensures value { result ≡ delay_after delays repeat }
    ensures range { result ≤ 600000000 }
{
    if repeat == 0 {
        delays.first.get()
    } else {
        delays.next.get()
    }
}

fn repeats(key: &KeyMsg) -> bool
    ensures { result ≡ is_repeated key.now }
{
    key.key.down && key.repeat < u32::MAX
}

impl Repeat {
    /// Starts with no key message.
    pub fn new() -> Repeat
        ensures { result ≡ None }
    {
        Repeat { last: None }
    }

    /// Records that a channel was sent a key message at this clock.
    pub fn sent(&mut self, channel: u32, key: KeyMsg, clock: Moment)
        ensures { self.new ≡ Some (record { channel = channel; key = key; clock = clock }) }
    {
        self.last = Some(Sent {
            channel,
            key,
            clock,
        });
    }

    /// Records that the key is no longer held.
    pub fn stop(&mut self)
        ensures { self.new ≡ None }
    {
        self.last = None;
    }

    /// The channel of the last key message. None if no message came since `new` or the last `stop`.
    pub fn channel(&self) -> Option<u32>
        ensures { result ≡ option_map (λ s. s.channel) self.now }
    {
        let sent = self.last?;
        Some(sent.channel)
    }

    /// When the next repeat is due, in microseconds, by the delays of the channel of the last key message. None if no
    /// message came since `new` or the last `stop`, if the channel gets no repeats, if the message was an up, or if its
    /// repeat number is the greatest of 32 bits.
    pub fn due(&self, delays: Option<Repeats>) -> Option<u64>
        ensures { result ≡ due_of delays self.now }
    {
        let sent = self.last?;
        let delays = delays?;
        if repeats(&sent.key) {
            Some(sent.clock.get() + delay(delays, sent.key.repeat))
        } else {
            None
        }
    }

    /// The channel that the next repeat is for, and the repeat: the same down, its number one higher. None exactly if
    /// no repeat is ever due, whatever the delays.
    pub fn next(&self) -> Option<(u32, KeyMsg)>
        ensures { option_map (λ n. (n.0, n.1)) result ≡ next_of self.now }
    {
        let sent = self.last?;
        if repeats(&sent.key) {
            let key = KeyMsg {
                key: sent.key.key,
                flags: sent.key.flags,
                repeat: sent.key.repeat + 1,
            };
            Some((sent.channel, key))
        } else {
            None
        }
    }
}
