//! Why a stream file is refused.
ghost use Rattle.std.specs.Prelude.{◌≡◌};
ghost use Rattle.judge_text.specs.declared.error.JudgeError.TheVariants.{Memory};

use crate::down::StillDown;
use gesture_verifier::Reason;
use std::alloc::{AllocError, AllocFailed};

/// Why a stream file is refused: the first of these that holds. Lines are numbered from 1.
#[derive(Debug, Drop)]
pub enum JudgeError {
    /// The line is not of the grammar of stream files, or is missing: the first such one.
    BadLine { line: u64 },

    /// The message of the line is not allowed where it stands: the first such one.
    Broken { line: u64, reason: Reason },

    /// The line ends a section after which something is down: the first such one.
    StillDown { line: u64, down: StillDown },

    /// No section has a message.
    Nothing,

    /// Memory ran out.
    Memory,
}

impl From<AllocError> for JudgeError {
    ghost from_gives = { λ _ e. e ≡ Memory };

    fn from(_error: AllocError) -> JudgeError {
        JudgeError::Memory
    }
}

impl<T: Drop> From<AllocFailed<T>> for JudgeError {
    ghost from_gives = { λ _ e. e ≡ Memory };

    fn from(_error: AllocFailed<T>) -> JudgeError {
        JudgeError::Memory
    }
}
