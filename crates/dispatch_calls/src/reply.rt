//! Replies of the dispatcher.
use input_types::Message;

/// The reply to a call of the dispatcher. `Full`, `Inconsistent`, `Idle`, `Empty`, `Gone`, `UnknownSeq`, `NotSpy` and
/// `NothingHeld` are refusals: they change only the history and the clock.
#[derive(Clone, Copy, Debug, PartialEq, Eq)]
pub enum Reply {
    /// The channel was opened, with this number. Channels are numbered 1, 2, 3 in the order of their opening.
    Opened(u32),
    /// 64 channels were already opened, counting removed ones.
    Full,
    /// The call took effect.
    Done,
    /// The args wait to be dispatched.
    Taken,
    /// The args do not fit the earlier accepted args of their device. `pointers` is the set of ids that are down on
    /// the device, as bits, and `key_down` says for a key whether its scan code is down.
    Inconsistent { pointers: u32, key_down: bool },
    /// The first waiting args were dispatched.
    Dispatched,
    /// No args waited, and a held key was repeated.
    Repeated,
    /// No args waited, and no repeat was due.
    Idle,
    /// The channels that this call reported unresponsive, as a mask: bit `id - 1` stands for the channel `id`.
    Named(u64),
    /// The next message of the channel.
    Got(Message),
    /// The channel has no published message left to receive.
    Empty,
    /// The channel was never opened, or was removed.
    Gone,
    /// The message was not received, or is finished already.
    UnknownSeq,
    /// No spy of this channel is among the current windows.
    NotSpy,
    /// The spy holds no pointer of the device.
    NothingHeld,
}
