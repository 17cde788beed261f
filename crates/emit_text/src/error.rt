//! Why a stream is not written as a recording.
ghost use Rattle.std.specs.Prelude.{◌≡◌};
ghost use Rattle.emit_text.specs.declared.error.EmitError.TheVariants.{Memory};
ghost use Rattle.emit_text.specs.Refusals.{file_refusal, packet_refusal};

use std::alloc::AllocError;
use stream_judge::FileError;
use touch_writer::WriteError;

/// Why a stream is not written as a recording. Lines are numbered from 1.
#[derive(Clone, Copy, Debug, PartialEq, Eq)]
pub enum EmitError {
    /// The line is not of the grammar of stream files, or is missing: the first such one.
    BadLine { line: u64 },

    /// The message of the line is not allowed where it stands: the first such one.
    NotWellFormed { line: u64 },

    /// No section is of the channel.
    NoChannel,

    /// The time of the line's motion is too late for an event of a recording.
    TooLate { line: u64 },

    /// The motion of the line has a pointer with an id that cooking would not give it.
    NotAssignable { line: u64 },

    /// No slots or no tracking ids are left at the line. This cannot happen for a file of at most 64 MiB.
    Spent { line: u64 },

    /// The recording has more than 33,554,432 bytes.
    TooLong,

    /// Out of memory.
    Memory,
}

impl From<AllocError> for EmitError {
    ghost from_gives = { λ _ e. e ≡ Memory };

    fn from(_error: AllocError) -> EmitError {
        EmitError::Memory
    }
}

impl From<FileError> for EmitError {
    ghost from_gives = { λ error e. e ≡ file_refusal error };

    fn from(error: FileError) -> EmitError {
        match error {
            FileError::BadLine { line } => EmitError::BadLine { line },
            FileError::NotWellFormed { line } => EmitError::NotWellFormed { line },
            FileError::Memory => EmitError::Memory,
        }
    }
}

/// Why the packet of a motion in this line is refused.
pub(crate) fn packet_refusal(line: u64, error: WriteError) -> EmitError
    ensures { result ≡ packet_refusal line error }
{
    match error {
        WriteError::NotAssignable { .. } => EmitError::NotAssignable { line },
        WriteError::TooMany | WriteError::Spent => EmitError::Spent { line },
        WriteError::Memory => EmitError::Memory,
    }
}
