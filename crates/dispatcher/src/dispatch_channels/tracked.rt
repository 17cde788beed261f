//! Tracks what a window is sent.
ghost use Rattle.std.specs.Prelude.{◌≤◌};
ghost use Rattle.dispatcher.specs.CancelSynthesis.Tracked.{Tracks};

use crate::cancel_synthesis::InputState;
use input_types::Body;
use std::alloc::AllocError;

/// Tracks what a window is sent, for which there is room.
pub(crate) fn track(input: &mut InputState, body: &Body)
    requires { 1 ≤ input.old.spare }
    ensures { Tracks input.old input.new body.now }
{
    match input.track(body) {
        Ok(()) => {}
        Err(AllocError) => unreachable!(),
    }
}
