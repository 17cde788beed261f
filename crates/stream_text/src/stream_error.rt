//! Why a stream file is not read.
ghost use Rattle.std.specs.Prelude.{◌≡◌};
ghost use Rattle.stream_text.specs.declared.stream_error.StreamError.TheVariants.{Memory};

use std::alloc::{AllocError, AllocFailed};

/// Why a stream file is not read. Lines are numbered from 1.
#[derive(Clone, Copy, Debug, PartialEq, Eq)]
pub enum StreamError {
    /// The line does not have its form, does not fit where it stands, or is missing: the first such one. A missing line
    /// has the number one past the last line there.
    BadLine { line: u64 },

    /// Memory ran out.
    Memory,
}

impl From<AllocError> for StreamError {
    ghost from_gives = { λ _ e. e ≡ Memory };

    fn from(_error: AllocError) -> StreamError {
        StreamError::Memory
    }
}

impl<T: Drop> From<AllocFailed<T>> for StreamError {
    ghost from_gives = { λ _ e. e ≡ Memory };

    fn from(_error: AllocFailed<T>) -> StreamError {
        StreamError::Memory
    }
}
