//! What a run keeps to show what it did.
ghost use Rattle.std.specs.Prelude.{◌≡◌, ℕ, List, [], option_map};
ghost use Rattle.schedule.specs.Causes.{causes_of};
ghost use Rattle.schedule.specs.Lines.{texts};

use std::alloc::Global;

/// What a run keeps of its calls, and of the messages that its channels' owners receive.
#[derive(Clone, Copy, Debug, PartialEq, Eq)]
pub enum Lines {
    /// The line of each message. The text of the run is made from these.
    Kept,
    /// Only the number of messages. Such a run has no text.
    Counted,
    /// No lines of messages, but the result of each call except receives, and why.
    Causes,
}

impl Lines {
    /// How many texts a run with this many channels has.
    pub(crate) fn texts(self, channels: usize) -> usize
        ensures { result ≡ texts self channels }
    {
        match self {
            Lines::Kept => channels,
            Lines::Counted | Lines::Causes => 0,
        }
    }

    /// The text of the causes before the first call, if the run writes causes.
    pub(crate) fn causes(self, alloc: Global) -> Option<Vec<u8>>
        ensures { (displays : List ℕ) → option_map (λ v. v.items) result ≡ causes_of self displays [] }
    {
        match self {
            Lines::Causes => Some(Vec::new(alloc)),
            Lines::Kept | Lines::Counted => None,
        }
    }
}
