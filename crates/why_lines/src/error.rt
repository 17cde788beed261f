//! Where memory ran out.
ghost use Rattle.std.specs.Prelude.{◌≡◌};
ghost use Rattle.why_lines.specs.declared.error.OutOfMemory.TheVariants.{BeforeCall};

use std::alloc::AllocError;

/// Where memory ran out: before a call was made, or after it.
#[derive(Clone, Copy, Debug, PartialEq, Eq)]
pub enum OutOfMemory {
    /// The call was not made, and the dispatcher is as before.
    BeforeCall,

    /// The call was made, and not all of its lines were added.
    AfterCall,
}

impl From<AllocError> for OutOfMemory {
    ghost from_gives = { λ _ e. e ≡ BeforeCall };

    fn from(_error: AllocError) -> OutOfMemory {
        OutOfMemory::BeforeCall
    }
}

impl From<OutOfMemory> for AllocError {
    fn from(_error: OutOfMemory) -> AllocError {
        AllocError
    }
}
