//! Which channels may be due, and from when.
ghost use Rattle.std.specs.Prelude.{◌≡◌, ℕ, false, None};
ghost use Rattle.window_snapshot.specs.Mask.{mask_has};
ghost use Rattle.dispatcher.specs.AnrTracker.Due.{due_of, NoneBelow};

use super::Tracker;

impl Tracker {
    /// A mask that has all channels with a due time.
    pub fn pending(&self) -> u64
        ensures { (c : ℕ) → mask_has result c ≡ false → due_of self.now c ≡ None }
    {
        self.pending
    }

    /// A time before which no channel is due. It does not search.
    pub fn least(&self) -> u64
        ensures { NoneBelow (due_of self.now) result }
    {
        self.least
    }
}
