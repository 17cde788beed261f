//! The channels.
ghost use Rattle.std.specs.Prelude.{◌≡◌, ℕ, true, [], ◌≤◌, ◌<◌, length, is_ok, option_copied, OnOk, OnErr, IfOk, IsOk};
ghost use Rattle.input_types.specs.declared.message.Body.TheVariants.{Motion as MotionBody};
ghost use Rattle.window_snapshot.specs.Mask.{mask_has};
ghost use Rattle.routing_rules.specs.Cover.{with_flags};
ghost use Rattle.dispatcher.specs.InputChannel.Order.{NoneAfter};
ghost use Rattle.dispatcher.specs.InputChannel.State.{next_of, received_one, received_next, received_uncopied, may_finish};
ghost use Rattle.dispatcher.specs.DispatchTables.Delivery.{none_noted};
ghost use Rattle.dispatch_history.specs.Reply.{is_due};
ghost use Rattle.dispatcher.specs.DispatchChannels.Table.{opened, IsOpened, channel_of, input_of, with_channel, with_room, but_for_room, NoLessRoom, due_moment};
ghost use Rattle.dispatcher.specs.DispatchChannels.Changes.{OpensOrNot, Sends, MayPublish, Publishes, finished_in, named_in, removed_in};

mod asked;
mod keys;
mod moves;
mod pending;
mod ready;
mod releasing;

use crate::anr_tracker::Tracker;
use crate::cancel_synthesis::InputState;
use crate::dispatch_channels::due::{clear_all, due_channels, due_in, set_due};
use crate::dispatch_channels::from_origin::{body_from, motion_from};
use crate::dispatch_channels::mask::{less, without};
use crate::dispatch_channels::noted::Anrs;
use crate::dispatch_channels::publishing::{able_after, finish_one, publish_all};
use crate::dispatch_channels::tracked::track;
use crate::input_channel::{Channel, UnknownSeq};
use dispatch_calls::Terms;
use input_types::{Body, Message, Moment, Motion, Pixel};
use std::alloc::{AllocError, Global};
use std::marker::Model;
use window_snapshot::{mask_has, mask_with};

/// The most channels that can be opened, including removed ones.
const MOST: usize = 64;

/// All channels that were opened, including removed ones. They have the numbers 1, 2, 3 in the order of their opening,
/// at most 64. A mask is a set of them: bit `id - 1` stands for the channel `id`.
#[derive(Drop)]
pub struct Channels {
    channels: Vec<Channel>,
    /// For each channel, the pointers and keys still down in its window's stream.
    inputs: Vec<InputState>,
    live: u64,
    able: u64,
    /// When the able channels are due to be reported.
    tracker: Tracker,
    anrs: Anrs,
}

impl Model for Channels {
    ghost use Rattle.std.specs.Prelude.{length};
    ghost use Rattle.dispatcher.specs.DispatchChannels.Table.{Table};
    ghost use Rattle.dispatcher.specs.DispatchChannels.Whole.{IsWhole};

    ghost Value = { Table };

    ghost view = { λ t. record {
      channels = t.channels.items;
      inputs = t.inputs.items;
      live = t.live;
      able = t.able;
      anrs = t.anrs;
    } };

    ghost invariant = { λ t. IsWhole t.channels.items (length t.inputs.items) t.live t.able t.tracker };
}

impl Channels {
    /// No channels.
    pub fn new(alloc: Global) -> Channels
        ensures { result ≡ record { channels = []; inputs = []; live = 0; able = 0; anrs = none_noted } }
    {
        Channels {
            channels: Vec::new(alloc),
            inputs: Vec::new(alloc),
            live: 0,
            able: 0,
            tracker: Tracker::new(),
            anrs: Anrs::new(alloc),
        }
    }

    /// How many channels were opened.
    pub fn opened(&self) -> u32
        ensures value { result ≡ opened self.now }
        ensures few { result ≤ 64 }
        ensures as_many { length self.now.inputs ≡ opened self.now }
    {
        self.channels.len() as u32
    }

    /// The mask of the channels that are live: opened, and not removed.
    pub fn live(&self) -> u64
        ensures value { result ≡ self.now.live }
        ensures opened { (c : ℕ) → mask_has result c ≡ true → c ≤ opened self.now }
    {
        self.live
    }

    /// The mask of the channels that are able to take input. Each is live.
    pub fn able(&self) -> u64
        ensures value { result ≡ self.now.able }
        ensures live { (c : ℕ) → mask_has result c ≡ true → mask_has self.now.live c ≡ true }
    {
        self.able
    }

    /// Opens a channel on these terms, which is live and able and has room for one message. Returns its number; None
    /// exactly if 64 were opened. If memory runs out, nothing changes.
    pub fn open(&mut self, terms: Terms) -> Result<Option<u32>, AllocError>
        ensures ok { IfOk result (λ number. OpensOrNot terms number self.old self.new) }
        ensures err { OnErr result (self.new ≡ self.old) }
        ensures full { opened self.old ≡ 64 → IsOk result }
    {
        if self.channels.len() == MOST {
            return Ok(None);
        }
        self.channels.reserve(1)?;
        self.inputs.reserve(1)?;
        let alloc = *self.channels.allocator();
        let mut channel = Channel::new(alloc, terms);
        channel.reserve(1)?;
        let mut input = InputState::new(alloc);
        input.reserve(1)?;
        self.channels.push_reserved(channel);
        self.inputs.push_reserved(input);
        let number = self.channels.len() as u32;
        self.live = mask_with(self.live, number);
        self.able = mask_with(self.able, number);
        Ok(Some(number))
    }

    /// Makes room, so that the channel can be sent the next `n` bodies. If memory runs out, nothing changes but the
    /// room of the channel.
    pub fn reserve(&mut self, channel: u32, n: u32) -> Result<(), AllocError>
        requires { IsOpened self.old channel }
        ensures ok { OnOk result (self.new ≡ with_room channel n self.old) }
        ensures err { OnErr result (but_for_room self.new ≡ but_for_room self.old) }
        ensures room { NoLessRoom self.old self.new }
        ensures reserved { n ≤ (channel_of self.old channel).spare → n ≤ (input_of self.old channel).spare
            → IsOk result }
    {
        let place = channel as usize - 1;
        self.channels[place].reserve(n)?;
        self.inputs[place].reserve(n)
    }

    /// Sends a live channel a body, which is given in display pixels. Its owner reads positions that count from the
    /// window's origin and saturate at the ends of their type. Takes no memory.
    pub fn send(&mut self, channel: u32, body: &Body, origin: Pixel, clock: Moment)
        requires live { mask_has self.old.live channel ≡ true }
        requires room { 1 ≤ (channel_of self.old channel).spare }
        requires track_room { 1 ≤ (input_of self.old channel).spare }
        ensures { Sends channel body.now origin clock self.old self.new }
    {
        let place = channel as usize - 1;
        let _seq = self.channels[place].enqueue_reserved(body_from(origin, body), clock);
        track(&mut self.inputs[place], body);
    }

    /// Sends a live channel a motion with these flags in place of its own, as `send` would, without building its body
    /// in display pixels. Takes no memory.
    pub fn send_motion(
        &mut self,
        channel: u32,
        motion: &Motion,
        flags: u32,
        origin: Pixel,
        clock: Moment,
    )
        requires live { mask_has self.old.live channel ≡ true }
        requires room { 1 ≤ (channel_of self.old channel).spare }
        ensures { Sends channel (MotionBody (with_flags flags motion.now)) origin clock self.old self.new }
    {
        let place = channel as usize - 1;
        let body = Body::Motion(motion_from(origin, flags, motion));
        let _seq = self.channels[place].enqueue_reserved(body, clock);
        self.inputs[place].track_motion(motion);
    }

    /// Publishes the live channels of a mask at a clock. Takes no memory.
    ///
    /// No unfinished message of them may have been delivered after the clock.
    pub fn publish(&mut self, mask: u64, clock: Moment)
        requires { MayPublish mask clock self.old }
        ensures { Publishes mask clock self.old self.new }
    {
        let live = mask & self.live;
        publish_all(
            &mut self.channels,
            &mut self.tracker,
            self.able,
            live,
            clock,
        );
    }

    /// The next message for the owner of a channel, which stays the next one; None exactly if all published ones are
    /// received.
    pub fn next(&self, channel: u32) -> Option<&Message>
        requires { IsOpened self.now channel }
        ensures { option_copied result ≡ next_of (channel_of self.now channel) }
    {
        self.channels[channel as usize - 1].next()
    }

    /// The owner of a channel receives the message that `next` lends.
    pub fn mark_received(&mut self, channel: u32)
        requires opened { IsOpened self.old channel }
        requires published { (channel_of self.old channel).received < (channel_of self.old channel).published }
        ensures { self.new ≡ with_channel channel (received_one (channel_of self.old channel)) self.old }
    {
        self.channels[channel as usize - 1].mark_received();
    }

    /// The owner of a channel receives its next message, if one is published that it did not receive. The message may
    /// have been released.
    pub fn receive_uncopied(&mut self, channel: u32)
        requires { IsOpened self.old channel }
        ensures { self.new ≡ with_channel channel (received_uncopied (channel_of self.old channel)) self.old }
    {
        self.channels[channel as usize - 1].receive_uncopied();
    }

    /// Hands the next message of a channel to its owner; None exactly if all published ones are received. Takes no
    /// memory.
    pub fn receive(&mut self, channel: u32) -> Option<Message>
        requires { IsOpened self.old channel }
        ensures value { result ≡ next_of (channel_of self.old channel) }
        ensures state { self.new ≡ with_channel channel (received_next (channel_of self.old channel)) self.old }
    {
        self.channels[channel as usize - 1].receive()
    }

    /// The owner of a channel finishes a message. What may be published then is published at the clock, and a live
    /// channel is able if none of its messages is late. `UnknownSeq` comes exactly if the message is not received or is
    /// finished, and then nothing changes. Takes no memory.
    ///
    /// No unfinished message of the channel may have been delivered after the clock.
    pub fn finish(&mut self, channel: u32, seq: u64, clock: Moment) -> Result<(), UnknownSeq>
        requires opened { IsOpened self.old channel }
        requires may { NoneAfter clock (channel_of self.old channel).unfinished }
        ensures variant { is_ok result ≡ may_finish seq (channel_of self.old channel) }
        ensures ok { OnOk result (self.new ≡ finished_in channel seq clock self.old) }
        ensures err { OnErr result (self.new ≡ self.old) }
    {
        let kept = &mut self.channels[channel as usize - 1];
        finish_one(kept, seq, clock)?;
        let able = able_after(self.able, self.live, channel, kept.has_late(clock));
        let due = due_in(mask_has(able, channel), kept);
        self.able = able;
        set_due(&mut self.tracker, channel, due);
        Ok(())
    }

    /// The mask of the able channels whose oldest published and unfinished message is late at a time. It looks at no
    /// message, and if no channel is due, at no channel.
    pub fn late(&self, now: Moment) -> u64
        ensures { (c : ℕ) → mask_has result c ≡ is_due (due_moment self.now c) now }
    {
        let Some((moment, _)) = self.tracker.first_due() else {
            return 0;
        };
        if now.get() < moment {
            return 0;
        }
        due_channels(&self.tracker, self.opened(), now)
    }

    /// Reports the channels of a mask as unresponsive: records the oldest published and unfinished message of each, and
    /// makes none of them able. If memory runs out, nothing changes.
    pub fn name(&mut self, mask: u64, clock: Moment) -> Result<(), AllocError>
        ensures ok { OnOk result (self.new ≡ named_in mask clock self.old) }
        ensures err { OnErr result (self.new ≡ self.old) }
    {
        self.anrs.note(&self.channels, mask, clock)?;
        clear_all(&mut self.tracker, mask);
        self.able = less(self.able, mask);
        Ok(())
    }

    /// Removes a channel: it is no longer live or able. Its messages stay.
    pub fn remove(&mut self, channel: u32)
        requires { IsOpened self.old channel }
        ensures { self.new ≡ removed_in channel self.old }
    {
        self.live = without(self.live, channel);
        self.able = without(self.able, channel);
        self.tracker.clear(channel);
    }
}
