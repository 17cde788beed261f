//! Keys.
ghost use Rattle.std.specs.Prelude.{◌≡◌, ◌≤◌, true};
ghost use Rattle.input_types.specs.declared.axis.Pixel.{Pixel};
ghost use Rattle.input_types.specs.declared.message.Body.TheVariants.{Key as KeyBody};
ghost use Rattle.window_snapshot.specs.Mask.{mask_has};
ghost use Rattle.dispatcher.specs.DispatchChannels.Table.{channel_of, input_of};
ghost use Rattle.dispatcher.specs.DispatchChannels.Changes.{Sends};

use super::Channels;
use input_types::{KeyMsg, Moment};

impl Channels {
    /// Sends a live channel a key message, as `send` would, without building a body. Takes no memory.
    pub fn send_key(&mut self, channel: u32, message: &KeyMsg, clock: Moment)
        requires live { mask_has self.old.live channel ≡ true }
        requires room { 1 ≤ (channel_of self.old channel).spare }
        requires track_room { 1 ≤ (input_of self.old channel).spare }
        ensures { (origin : Pixel) → Sends channel (KeyBody message.now) origin clock self.old self.new }
    {
        let place = channel as usize - 1;
        self.channels[place].enqueue_key(message, clock);
        self.inputs[place].track_key(message);
    }
}
