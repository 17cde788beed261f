//! The messages that are published and not finished.
ghost use Rattle.std.specs.Prelude.{◌≡◌, ◌+◌, ◌^◌, ◌<◌, ◌≤◌, ◌==◌, ◌++◌, length};
ghost use Rattle.std.specs.List.{position};
ghost use Rattle.dispatcher.specs.InputChannel.Order.{delivered};

use arrayvec::ArrayVec;
use input_types::Moment;

/// The most messages that are published and not finished.
pub(crate) const MOST: usize = 64;

/// A message that is published and not finished: its number, and the clock at which it was published.
#[derive(Clone, Copy, Debug, PartialEq, Eq)]
pub struct Unfinished {
    pub seq: u64,
    pub delivery: Moment,
}

impl Default for Unfinished {
    fn default() -> Unfinished {
        Unfinished {
            seq: 0,
            delivery: Moment::zero(),
        }
    }
}

/// Delivers the `count` messages that come after the number `from`.
pub(crate) fn deliver(
    unfinished: &mut ArrayVec<Unfinished, 64>,
    from: u64,
    count: u64,
    clock: Moment,
)
    requires room { length unfinished.old.items + count ≤ 64 }
    requires numbers { from + count < 2 ^ 64 }
    ensures { unfinished.new.items ≡ unfinished.old.items ++ delivered clock from count }
{
    for i in 0..count {
        unfinished.push(Unfinished {
            seq: from + i + 1,
            delivery: clock,
        });
    }
}

/// The index of a message among the unfinished ones.
pub(crate) fn place_of(unfinished: &[Unfinished], seq: u64) -> Option<usize>
    ensures { result ≡ position (λ u. u.seq == seq) unfinished.now }
{
    unfinished.iter().position(|u| u.seq == seq)
}
