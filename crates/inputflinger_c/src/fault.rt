//! Faults as C gets them.
ghost use Rattle.std.specs.Prelude.{◌≡◌};
ghost use Rattle.inputflinger_c.specs.Faults.{plain_fault, reason_number};

use gesture_verifier::{Fault, Reason};
use plain_calls::flag;

/// Why a message is not allowed, and what the window knew: `struct inputflinger_fault`.
#[repr(C)]
#[derive(Clone, Copy, Debug)]
pub struct PlainFault {
    /// How many messages were accepted before. The count saturates at the greatest u64.
    pub place: u64,
    /// The repeat number that the next down of the message's key must have, which may be 2^32; 0 if the key is up or
    /// the message is not about a key.
    pub next_repeat: u64,
    /// The pointer ids that are down on the device of the motion, as bits; 0 if the message is not a motion.
    pub held: u32,
    /// The number of the reason, 0 if there is none.
    pub reason: u32,
    /// 1 if the key of the message is down, else 0.
    pub key_down: u8,
    /// 1 if the window has the focus, else 0.
    pub focus: u8,
}

/// A fault as C gets it.
pub(crate) fn plain_fault(fault: &Fault) -> PlainFault
    ensures { result ≡ plain_fault fault.now }
{
    PlainFault {
        place: fault.place,
        next_repeat: fault.next_repeat.unwrap_or(0),
        held: fault.held,
        reason: reason_number(fault.reason),
        key_down: flag(fault.next_repeat.is_some()),
        focus: flag(fault.focus),
    }
}

/// The number of a reason; 0 for none.
fn reason_number(reason: Option<Reason>) -> u32
    ensures { result ≡ reason_number reason }
{
    match reason {
        None => 0,
        Some(Reason::Flags) => 1,
        Some(Reason::AlreadyDown) => 2,
        Some(Reason::OnePointer) => 3,
        Some(Reason::NothingDown) => 4,
        Some(Reason::OtherPointers) => 5,
        Some(Reason::LastPointer) => 6,
        Some(Reason::MorePointers) => 7,
        Some(Reason::RepeatOfNothing) => 8,
        Some(Reason::RepeatOutOfTurn) => 9,
        Some(Reason::KeyNotDown) => 10,
        Some(Reason::RepeatOnUp) => 11,
        Some(Reason::FocusTwice) => 12,
    }
}
