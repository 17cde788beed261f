//! Releases messages and ANRs.
ghost use Rattle.std.specs.Prelude.{◌≡◌};
ghost use Rattle.dispatcher.specs.InputChannel.State.{release_of, each_released, all_released};
ghost use Rattle.dispatcher.specs.DispatchTables.Delivery.{noted_gone};
ghost use Rattle.dispatcher.specs.DispatchChannels.Table.{IsOpened, channel_of, with_channel};

use super::Channels;

impl Channels {
    /// Releases the messages of a channel that were received. Their numbers stay in use.
    pub fn release(&mut self, channel: u32)
        requires { IsOpened self.old channel }
        ensures { self.new ≡ with_channel channel (release_of (channel_of self.old channel)) self.old }
    {
        self.channels[channel as usize - 1].release();
    }

    /// Releases all messages of a channel, received or not. Their numbers stay in use, and the room for more stays.
    pub fn release_each(&mut self, channel: u32)
        requires { IsOpened self.old channel }
        ensures { self.new ≡ with_channel channel (each_released (channel_of self.old channel)) self.old }
    {
        self.channels[channel as usize - 1].release_each();
    }

    /// Releases all messages of a channel, and gives back their memory. Their numbers stay in use.
    pub fn release_all(&mut self, channel: u32)
        requires { IsOpened self.old channel }
        ensures { self.new ≡ with_channel channel (all_released (channel_of self.old channel)) self.old }
    {
        self.channels[channel as usize - 1].release_all();
    }

    /// Releases the ANRs so far, and gives back their memory.
    pub fn release_anrs(&mut self)
        ensures { self.new ≡ record self.old { anrs = noted_gone self.old.anrs } }
    {
        self.anrs.release();
    }
}
