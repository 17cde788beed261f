ghost use Rattle.std.specs.Prelude.{◌≡◌};
ghost use Rattle.raw_events.specs.declared.event.LineError.TheVariants.{Memory};

use input_types::{DeviceId, Moment};
use std::alloc::{AllocError, AllocFailed};

/// One event of a device, as the kernel's `struct input_event` has it.
#[derive(Clone, Copy, Debug, PartialEq, Eq)]
pub struct RawEvent {
    pub device: DeviceId,
    pub moment: Moment,

    /// The type, as EV_ABS.
    pub kind: u16,

    /// What of that type, as ABS_MT_SLOT.
    pub code: u16,
    pub value: i32,
}

/// Why a recording is refused. Lines are numbered from 1.
#[derive(Clone, Copy, Debug, PartialEq, Eq)]
pub enum LineError {
    /// The line begins with `[`, but is not of the form `[ SECONDS.FRACTION ] PATH: TYPE CODE VALUE`.
    BadLine { line: u64 },

    /// The line is one of a recording that was made without moments (`getevent` without `-t`).
    NoMoment { line: u64 },

    /// The line has more than 4,096 bytes before its newline.
    TooLong { line: u64 },

    /// Memory ran out.
    Memory,
}

impl From<AllocError> for LineError {
    ghost from_gives = { λ _ e. e ≡ Memory };

    fn from(_error: AllocError) -> LineError {
        LineError::Memory
    }
}

impl<T: Drop> From<AllocFailed<T>> for LineError {
    ghost from_gives = { λ _ e. e ≡ Memory };

    fn from(_error: AllocFailed<T>) -> LineError {
        LineError::Memory
    }
}
