//! Why an order is not read.
ghost use Rattle.std.specs.Prelude.{◌≡◌};
ghost use Rattle.stream_text.specs.declared.order_error.OrderError.TheVariants.{Memory};

use std::alloc::AllocError;

/// Why an order is not read. Lines are numbered from 1.
#[derive(Clone, Copy, Debug, PartialEq, Eq)]
pub enum OrderError {
    /// The line has not its form, or is missing: the first such one. A missing line has the number one past the last
    /// line there.
    BadLine { line: u64 },

    /// Memory ran out.
    Memory,
}

impl From<AllocError> for OrderError {
    ghost from_gives = { λ _ e. e ≡ Memory };

    fn from(_error: AllocError) -> OrderError {
        OrderError::Memory
    }
}
