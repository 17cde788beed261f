//! Why a layout is refused.
ghost use Rattle.std.specs.Prelude.{◌≡◌};
ghost use Rattle.key_layout.specs.declared.error.LayoutError.TheVariants.{Memory};

use std::alloc::{AllocError, AllocFailed};

/// Why a layout is refused: what is wrong with its first refused line. Lines are numbered from 1.
#[derive(Clone, Copy, Debug, PartialEq, Eq)]
pub enum LayoutError {
    /// The line does not belong in a layout, or its scan code is not a number from 0 to 65535.
    BadLine { line: u64 },

    /// The name contains something other than capital letters, digits and underscores.
    BadName { line: u64 },

    /// An earlier line has this scan code.
    Twice { line: u64, scan: u16 },

    /// Out of memory.
    Memory,
}

impl From<AllocError> for LayoutError {
    ghost from_gives = { λ _ e. e ≡ Memory };

    fn from(_error: AllocError) -> LayoutError {
        LayoutError::Memory
    }
}

impl<T: Drop> From<AllocFailed<T>> for LayoutError {
    ghost from_gives = { λ _ e. e ≡ Memory };

    fn from(_error: AllocFailed<T>) -> LayoutError {
        LayoutError::Memory
    }
}
