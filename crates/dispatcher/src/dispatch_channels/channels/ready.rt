//! Room that is counted ahead.
ghost use Rattle.std.specs.Prelude.{◌≡◌, ◌≤◌, length, OnOk, IsOk};
ghost use Rattle.dispatcher.specs.DispatchChannels.Table.{opened, IsOpened, channel_of, input_of, but_for_room, NoLessRoom};

use super::Channels;
use std::alloc::AllocError;

impl Channels {
    /// Makes room, so that the channel can be sent the next `n` bodies, and counts all the room that there is then. If
    /// it has enough already, nothing is done. If memory runs out, nothing changes but the room of the channel.
    #[inline(always)]
    pub fn make_ready(&mut self, channel: u32, n: u32) -> Result<(), AllocError>
        requires { IsOpened self.old channel }
        ensures ok { OnOk result
            ((n ≤ (channel_of self.new channel).spare) × (n ≤ (input_of self.new channel).spare)) }
        ensures same { but_for_room self.new ≡ but_for_room self.old }
        ensures room { NoLessRoom self.old self.new }
        ensures opened { opened self.new ≡ opened self.old }
        ensures inputs { length self.new.inputs ≡ length self.old.inputs }
        ensures reserved { n ≤ (channel_of self.old channel).spare → n ≤ (input_of self.old channel).spare
            → IsOk result }
    {
        let place = channel as usize - 1;
        if n <= self.channels[place].spare() && n <= self.inputs[place].spare() {
            return Ok(());
        }
        self.count_room(channel, n)
    }

    /// Does the same for a channel that may not have enough. It is not inlined, since usually a channel has enough.
    #[inline(never)]
    fn count_room(&mut self, channel: u32, n: u32) -> Result<(), AllocError>
        requires { IsOpened self.old channel }
        ensures ok { OnOk result
            ((n ≤ (channel_of self.new channel).spare) × (n ≤ (input_of self.new channel).spare)) }
        ensures same { but_for_room self.new ≡ but_for_room self.old }
        ensures room { NoLessRoom self.old self.new }
        ensures opened { opened self.new ≡ opened self.old }
        ensures inputs { length self.new.inputs ≡ length self.old.inputs }
        ensures reserved { n ≤ (channel_of self.old channel).spare → n ≤ (input_of self.old channel).spare
            → IsOk result }
    {
        let place = channel as usize - 1;
        self.channels[place].make_ready(n)?;
        self.inputs[place].make_ready(n)
    }
}
