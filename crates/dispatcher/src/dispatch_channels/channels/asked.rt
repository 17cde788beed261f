//! What can be asked about the channels.
ghost use Rattle.std.specs.Prelude.{◌≡◌, true, None, nat_le, if◌then◌else◌};
ghost use Rattle.window_snapshot.specs.Mask.{is_channel};
ghost use Rattle.dispatcher.specs.AnrTracker.Due.{IsFirst};
ghost use Rattle.dispatcher.specs.InputChannel.State.{oldest_of};
ghost use Rattle.dispatcher.specs.DispatchChannels.Table.{IsOpened, channel_of, input_of, due_moment};
ghost use Rattle.dispatcher.specs.DispatchChannels.Changes.{counts_in};

use crate::cancel_synthesis::InputState;
use crate::dispatch_channels::channels::Channels;
use dispatch_calls::{Anr, Counts};
use input_types::{Message, Moment};
use key_repeat::Repeats;
use window_snapshot::mask_has;

impl Channels {
    /// How far a channel got; None exactly if no channel was opened with this number.
    pub fn counts(&self, channel: u32) -> Option<Counts>
        ensures { result ≡ counts_in self.now channel }
    {
        if channel < 1 || self.opened() < channel {
            return None;
        }
        let kept = &self.channels[channel as usize - 1];
        Some(Counts {
            sent: kept.sent(),
            received: kept.received(),
            finished: kept.finished(),
            published: kept.published(),
            live: mask_has(self.live, channel),
        })
    }

    /// When a channel is due to be reported: its limit after the delivery of its oldest published and unfinished
    /// message. None exactly if the channel is not able, or has no such message.
    pub fn due(&self, channel: u32) -> Option<u64>
        requires { is_channel channel ≡ true }
        ensures { result ≡ due_moment self.now channel }
    {
        self.tracker.due(channel)
    }

    /// The first time at which a channel is due to be reported, and the channel, the lowest one if several are due
    /// then. None exactly if no channel is due.
    pub fn first_due(&self) -> Option<(u64, u32)>
        ensures { IsFirst (due_moment self.now) result }
    {
        self.tracker.first_due()
    }

    /// When a key that the window of a channel holds is repeated; None if never, or if no channel was opened with this
    /// number.
    pub fn repeats(&self, channel: u32) -> Option<Repeats>
        ensures { result ≡ (if nat_le 1 channel then (channel_of self.now channel).terms.repeats else None) }
    {
        if channel < 1 {
            return None;
        }
        let kept = self.channels.get(channel as usize - 1)?;
        kept.repeats()
    }

    /// The number and the delivery of the oldest published and unfinished message of a channel; None exactly if every
    /// published message is finished.
    pub fn oldest(&self, channel: u32) -> Option<(u64, Moment)>
        requires { IsOpened self.now channel }
        ensures { result ≡ oldest_of (channel_of self.now channel) }
    {
        self.channels[channel as usize - 1].oldest_unfinished()
    }

    /// The messages of a channel that were not released.
    pub fn messages(&self, channel: u32) -> &[Message]
        requires { IsOpened self.now channel }
        ensures { result.now ≡ (channel_of self.now channel).messages }
    {
        self.channels[channel as usize - 1].messages()
    }

    /// The pointers and keys still down in the stream of a channel's window, from which cancels are made.
    pub fn input(&self, channel: u32) -> &InputState
        requires { IsOpened self.now channel }
        ensures { result.now ≡ input_of self.now channel }
    {
        &self.inputs[channel as usize - 1]
    }

    /// The ANRs that were not released, oldest first.
    pub fn anrs(&self) -> &[Anr]
        ensures { result.now ≡ self.now.anrs.left }
    {
        self.anrs.left()
    }
}
