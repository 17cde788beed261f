//! What takes the bytes of a file.
ghost use Rattle.std.specs.Prelude.{ℕ, List, [], ◌++◌, OnOk};

use std::alloc::AllocError;

/// What takes the bytes of a file, piece by piece: a recording that is run, or one that is counted.
pub trait Taker {
    /// What is lent to it with each piece.
    type Beside;

    /// What may be lent.
    ghost fits: { Self.Beside → Type 0 };

    /// How taking bytes leads from one state to another.
    ghost takes: { Self.Beside → Self → Self → List ℕ → Type 0 };

    /// Takes the next piece.
    fn take(&mut self, beside: &Self::Beside, piece: &[u8]) -> Result<(), AllocError>
        requires { fits beside.now }
        ensures { OnOk result (takes beside.now self.old self.new piece.now) };

    /// No bytes leave the state as it is.
    ghost none: { (b : Self.Beside) (s : Self) → takes b s s [] };

    /// Two pieces lead to the same state as their bytes in one piece.
    ghost more: { (b : Self.Beside) (s t u : Self) (front behind : List ℕ) → takes b s t front → takes b t u behind
        → takes b s u (front ++ behind) };
}
