//! The statuses of the service's replies.
ghost use Rattle.std.specs.Prelude.{◌≡◌};
ghost use Rattle.plain_calls.specs.Replies.{close_status, focus_status, finish_status, pilfer_status, args_status, finger_status};

use crate::status::{
    INCONSISTENT, IS_DOWN, MANY_FINGERS, MEMORY, NO_DEVICE, NOT_DOWN, NOT_OPEN, NOT_SPY,
    NOTHING_HELD, OK, UNKNOWN_SEQ, WAITS,
};
use live_input::{
    ArgsRefused, CloseRefused, FingerRefused, FinishRefused, FocusRefused, PilferRefused,
};

/// The status of a closing.
pub(crate) fn close_status(reply: Result<(), CloseRefused>) -> u32
    ensures { result ≡ close_status reply }
{
    match reply {
        Ok(()) => OK,
        Err(CloseRefused::NotOpen) => NOT_OPEN,
        Err(CloseRefused::Memory) => MEMORY,
    }
}

/// The status of a focus request.
pub(crate) fn focus_status(reply: Result<(), FocusRefused>) -> u32
    ensures { result ≡ focus_status reply }
{
    match reply {
        Ok(()) => OK,
        Err(FocusRefused::NotOpen) => NOT_OPEN,
        Err(FocusRefused::Memory) => MEMORY,
    }
}

/// The status of finishing a message.
pub(crate) fn finish_status(reply: Result<(), FinishRefused>) -> u32
    ensures { result ≡ finish_status reply }
{
    match reply {
        Ok(()) => OK,
        Err(FinishRefused::NotOpen) => NOT_OPEN,
        Err(FinishRefused::UnknownSeq) => UNKNOWN_SEQ,
        Err(FinishRefused::Memory) => MEMORY,
    }
}

/// The status of a pilfer.
pub(crate) fn pilfer_status(reply: Result<(), PilferRefused>) -> u32
    ensures { result ≡ pilfer_status reply }
{
    match reply {
        Ok(()) => OK,
        Err(PilferRefused::NotOpen) => NOT_OPEN,
        Err(PilferRefused::NotSpy) => NOT_SPY,
        Err(PilferRefused::NothingHeld) => NOTHING_HELD,
        Err(PilferRefused::Memory) => MEMORY,
    }
}

/// The status of what a device gave, or of its removal.
pub(crate) fn args_status(reply: Result<(), ArgsRefused>) -> u32
    ensures { result ≡ args_status reply }
{
    match reply {
        Ok(()) => OK,
        Err(ArgsRefused::NoDevice) => NO_DEVICE,
        Err(ArgsRefused::Inconsistent) => INCONSISTENT,
        Err(ArgsRefused::Memory) => MEMORY,
        Err(ArgsRefused::Waits) => WAITS,
    }
}

/// The status of what a finger does.
pub(crate) fn finger_status(reply: Result<(), FingerRefused>) -> u32
    ensures { result ≡ finger_status reply }
{
    match reply {
        Ok(()) => OK,
        Err(FingerRefused::IsDown) => IS_DOWN,
        Err(FingerRefused::NotDown) => NOT_DOWN,
        Err(FingerRefused::TooMany) => MANY_FINGERS,
        Err(FingerRefused::Device(refused)) => args_status(Err(refused)),
    }
}
