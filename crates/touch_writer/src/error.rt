//! Why a packet is refused.
ghost use Rattle.std.specs.Prelude.{◌≡◌};
ghost use Rattle.touch_writer.specs.declared.error.WriteError.TheVariants.{Memory};

use input_types::PointerId;
use std::alloc::{AllocError, AllocFailed};

/// Why a packet is refused.
#[derive(Clone, Copy, Debug, PartialEq, Eq)]
pub enum WriteError {
    /// More contacts are wanted than the device has slots.
    TooMany,

    /// Cooking would not give a new contact this id.
    NotAssignable { id: PointerId },

    /// No tracking ids are left.
    Spent,

    /// Out of memory.
    Memory,
}

impl From<AllocError> for WriteError {
    ghost from_gives = { λ _ e. e ≡ Memory };

    fn from(_error: AllocError) -> WriteError {
        WriteError::Memory
    }
}

impl<T: Drop> From<AllocFailed<T>> for WriteError {
    ghost from_gives = { λ _ e. e ≡ Memory };

    fn from(_error: AllocFailed<T>) -> WriteError {
        WriteError::Memory
    }
}
