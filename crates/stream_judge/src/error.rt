//! Why a stream file is refused.
ghost use Rattle.std.specs.Prelude.{◌≡◌};
ghost use Rattle.stream_judge.specs.declared.error.FileError.TheVariants.{Memory};

use std::alloc::{AllocError, AllocFailed};

/// Why a stream file is refused. Lines are numbered from 1.
#[derive(Clone, Copy, Debug, PartialEq, Eq)]
pub enum FileError {
    /// The line does not follow the grammar of stream files, or is missing. It is the first such line.
    BadLine { line: u64 },

    /// The message of the line is not allowed where it stands. It is the first such message.
    NotWellFormed { line: u64 },

    /// Out of memory.
    Memory,
}

impl From<AllocError> for FileError {
    ghost from_gives = { λ _ e. e ≡ Memory };

    fn from(_error: AllocError) -> FileError {
        FileError::Memory
    }
}

impl<T: Drop> From<AllocFailed<T>> for FileError {
    ghost from_gives = { λ _ e. e ≡ Memory };

    fn from(_error: AllocFailed<T>) -> FileError {
        FileError::Memory
    }
}
