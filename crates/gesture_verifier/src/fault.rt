//! Why a message was not accepted.
ghost use Rattle.std.specs.Prelude.{◌≡◌};

use crate::reason::Reason;
use input_types::Message;
use std::alloc::AllocError;

/// A message that was not allowed when it came, and what the window knew then.
#[derive(Clone, Copy, Debug, PartialEq, Eq)]
pub struct Fault {
    /// How many messages were accepted before, saturated at the greatest u64.
    pub place: u64,
    /// The pointer ids that are down on the device of the motion, as bits; 0 if the message is not a motion.
    pub held: u32,
    /// The repeat number that the next down of the message's key must have, which may be 2^32; None if the key is up
    /// or the message is not about a key.
    pub next_repeat: Option<u64>,
    /// Whether the window has the focus.
    pub focus: bool,
    /// The message that was refused.
    pub message: Message,
    /// Why it is not allowed. None only if no line of a stream file can spell the message, for example because of other
    /// flags.
    pub reason: Option<Reason>,
}

/// Why a message was not accepted, or not checked.
#[derive(Clone, Copy, Debug, PartialEq, Eq)]
pub enum StepError {
    /// The stream would not be well-formed.
    Fault(Fault),
    /// Out of memory for the table of keys.
    Memory,
}

impl From<AllocError> for StepError {
    ghost use Rattle.gesture_verifier.specs.declared.fault.StepError.TheVariants.{Memory};

    ghost from_gives = { λ _ e. e ≡ Memory };

    fn from(_error: AllocError) -> StepError {
        StepError::Memory
    }
}
