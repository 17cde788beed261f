//! Why an order cannot be made.
ghost use Rattle.std.specs.Prelude.{◌≡◌};
ghost use Rattle.given_run.specs.declared.fault.Fault.TheVariants.{Memory};

use std::alloc::AllocError;

/// Why an order cannot be made.
#[derive(Clone, Copy, Debug, PartialEq, Eq)]
pub enum Fault {
    /// The first line that asks for args or for a step when none is left. This many lines come before it.
    NoStep { before: usize },

    /// Memory ran out.
    Memory,
}

impl From<AllocError> for Fault {
    ghost from_gives = { λ _ e. e ≡ Memory };

    fn from(_error: AllocError) -> Fault {
        Fault::Memory
    }
}
