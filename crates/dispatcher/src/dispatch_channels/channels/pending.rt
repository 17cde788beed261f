//! Which channels may have unfinished messages, and from when they may be due.
ghost use Rattle.std.specs.Prelude.{◌≡◌, ℕ, true, false, None};
ghost use Rattle.dispatcher.specs.AnrTracker.Due.{NoneBelow};
ghost use Rattle.dispatcher.specs.InputChannel.State.{oldest_of};
ghost use Rattle.window_snapshot.specs.Mask.{mask_has};
ghost use Rattle.dispatcher.specs.DispatchChannels.Table.{channel_of, due_moment};

use super::Channels;
use window_snapshot::mask_less;

impl Channels {
    /// A mask of live channels. No other live channel has a message that is published and not finished.
    pub fn unfinished(&self) -> u64
        ensures live { (c : ℕ) → mask_has result c ≡ true → mask_has self.now.live c ≡ true }
        ensures none { (c : ℕ) → mask_has self.now.live c ≡ true → mask_has result c ≡ false
            → oldest_of (channel_of self.now c) ≡ None }
    {
        mask_less(self.live, mask_less(self.able, self.tracker.pending()))
    }

    /// A time before which no channel is due to be reported. It does not search.
    pub fn due_from(&self) -> u64
        ensures { NoneBelow (due_moment self.now) result }
    {
        self.tracker.least()
    }
}
