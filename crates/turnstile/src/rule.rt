//! The rule of the table, and the kinds of step.
ghost use Rattle.turnstile.specs.Rule.{Holds};

use crate::machine::Machine;
use crate::view::View;
use atomic_table::{Join, Play, Split, TableRule};
use std::snapshot::Snapshot;

/// The invariant between any two steps: word 0 is the length of the history, word 1 the lock, and the slot has the
/// machine.
pub struct Order;

impl<M: Machine> TableRule<Option<M>, View<M::Setup, M::Call, M::Reply>, Snapshot<M>> for Order {
    ghost use Rattle.std.specs.Prelude.{[], Some};
    ghost use Rattle.turnstile.specs.Views.{newcomer};

    ghost holds = { λ _. Holds M.legal M.setup M.history };

    ghost first = { λ key. newcomer (Some (M.setup key.value)) 0 0 [] };
}

/// A compare-exchange of the lock: a hit if it was free, otherwise a miss.
pub struct Take;

impl<M: Machine> Play<Option<M>, View<M::Setup, M::Call, M::Reply>> for Take {
    ghost use Rattle.turnstile.specs.Told.{Takes};

    ghost then = { λ _ me n after. Takes M.legal M.setup M.history me n after };
}

/// A store of the length, which makes the history one entry longer.
pub struct Commit;

impl<M: Machine> Play<Option<M>, View<M::Setup, M::Call, M::Reply>> for Commit {
    ghost use Rattle.turnstile.specs.Told.{Commits};

    ghost then = { λ _ me _ after. Commits M.history me after };
}

/// A store of the lock, which puts the machine back into the slot.
pub struct Free;

impl<M, T, C, R> Play<Option<M>, View<T, C, R>> for Free {
    ghost use Rattle.turnstile.specs.Told.{Frees};

    ghost then = { λ _ me _ after. Frees me after };
}

/// A load of the length.
pub struct Look;

impl<M: Machine> Play<Option<M>, View<M::Setup, M::Call, M::Reply>> for Look {
    ghost use Rattle.turnstile.specs.Told.{Looks};

    ghost then = { λ _ me n after. Looks M.legal me n after };
}

/// A load of the length by number 0, which draws a number.
pub struct Draw;

impl<M, T, C, R> Play<Option<M>, View<T, C, R>> for Draw {
    ghost use Rattle.turnstile.specs.Told.{Draws};

    ghost then = { λ _ me _ after. Draws me after };
}

/// The drawn number becomes that of a new seat.
pub struct HandOut;

impl<T, C, R> Split<View<T, C, R>> for HandOut {
    ghost use Rattle.turnstile.specs.Views.{handed, fresh};

    ghost left = { handed };

    ghost right = { fresh };
}

/// One seat takes in another.
pub struct TakeIn;

impl<T, C, R> Join<View<T, C, R>> for TakeIn {
    ghost use Rattle.turnstile.specs.Views.{together, gone};

    ghost both = { together };

    ghost spent = { gone };
}
