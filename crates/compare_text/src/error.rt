//! Why two stream files differ.
ghost use Rattle.std.specs.Prelude.{◌≡◌};
ghost use Rattle.compare_text.specs.declared.error.CompareError.TheVariants.{Memory};

use crate::difference::Difference;
use std::alloc::AllocError;

/// Why two stream files differ: the first of these for the first expected section that has one, and then for the
/// first actual section without a partner. Lines are numbered from 1.
#[derive(Clone, Copy, Debug, PartialEq, Eq)]
pub enum CompareError {
    /// The points of these lines do not agree.
    Differs {
        want: u64,
        got: u64,
        what: Difference,
    },

    /// The actual section ended, and the expected one has this further point.
    Missing {
        want: u64,
    },

    /// The expected section ended, and the actual one has this further point.
    Added {
        got: u64,
    },

    /// The expected section that begins in this line has no partner.
    NoSection {
        want: u64,
    },

    /// The actual section that begins in this line has no partner.
    NewSection {
        got: u64,
    },

    /// Out of memory.
    Memory,
}

impl From<AllocError> for CompareError {
    ghost from_gives = { λ _ e. e ≡ Memory };

    fn from(_error: AllocError) -> CompareError {
        CompareError::Memory
    }
}
