//! Pointers that move.
ghost use Rattle.std.specs.Prelude.{◌≡◌, ◌≤◌, ◌==◌, ℕ, [], true, length};
ghost use Rattle.bits32.specs.Set.{is_in};
ghost use Rattle.input_types.specs.declared.axis.Pixel.{Pixel as PixelView};
ghost use Rattle.input_types.specs.declared.message.Body.TheVariants.{Motion as MotionBody};
ghost use Rattle.routing_rules.specs.Outgoing.{listing};
ghost use Rattle.dispatcher.specs.InputChannel.Moves.{move_of};
ghost use Rattle.window_snapshot.specs.Mask.{mask_has};
ghost use Rattle.dispatcher.specs.DispatchChannels.Table.{IsOpened, channel_of};
ghost use Rattle.dispatcher.specs.DispatchChannels.Changes.{Sends, SendsPast};

use super::Channels;
use crate::pointers_by_id::PointersById;
use bits32::Bits32;
use input_types::{DeviceId, Moment, Pixel};

impl Channels {
    /// Sends a live channel a Move of the pointers of a motion that have these ids, with these flags, as `send` would.
    /// The positions go from the motion into what the window was sent, and from there straight into the message. Takes
    /// no memory.
    pub fn send_moves(
        &mut self,
        channel: u32,
        device: DeviceId,
        flags: u32,
        pointers: &PointersById,
        ids: Bits32,
        origin: Pixel,
        clock: Moment,
    )
        requires live { mask_has self.old.live channel ≡ true }
        requires room { 1 ≤ (channel_of self.old channel).spare }
        ensures { let moving = listing (λ i. is_in i ids) pointers.now in
            Sends channel (MotionBody (move_of device flags moving)) origin clock self.old self.new }
    {
        let place = channel as usize - 1;
        self.inputs[place].track_moves(device, pointers, ids);
        let moving = self.inputs[place].pointers(device);
        self.channels[place].enqueue_moves(device, flags, moving, origin, clock);
    }

    /// Whether a channel keeps no message: each one was released.
    pub fn keeps_none(&self, channel: u32) -> bool
        requires { IsOpened self.now channel }
        ensures { result ≡ (length (channel_of self.now channel).messages == 0) }
    {
        self.channels[channel as usize - 1].keeps_none()
    }

    /// Sends a live channel that keeps no message such a Move, with any flags and from any origin, and releases it at
    /// once: the message is only counted. A reader makes it from what the window was sent. Takes no memory.
    pub fn send_moves_past(
        &mut self,
        channel: u32,
        device: DeviceId,
        pointers: &PointersById,
        ids: Bits32,
    )
        requires live { mask_has self.old.live channel ≡ true }
        requires none { (channel_of self.old channel).messages ≡ [] }
        requires room { 1 ≤ (channel_of self.old channel).spare }
        ensures { (flags : ℕ) (origin : PixelView) (clock : ℕ)
            → let moving = listing (λ i. is_in i ids) pointers.now in
            SendsPast channel (MotionBody (move_of device flags moving)) origin clock self.old self.new }
    {
        let place = channel as usize - 1;
        self.inputs[place].track_moves(device, pointers, ids);
        self.channels[place].count_past();
    }
}
