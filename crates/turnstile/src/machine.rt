//! The machine in a turnstile, and what a call through it returns.
ghost use Rattle.std.specs.Prelude.{◌≡◌, List, [], ◌∷◌, length, MatchResult};
ghost use Rattle.turnstile.specs.History.{Entry};

use std::alloc::AllocError;

/// A machine whose answered calls make one history, newest first.
pub trait Machine {
    /// What the machine was set up with. No step changes it.
    type Setup;

    type Call;

    type Reply;

    /// Which histories are possible with a setup.
    ghost legal: { Self.Setup → List (Entry Self.Call Self.Reply) → Type 0 };

    /// What a contract sees of a machine: its setup and its history.
    ghost setup: { Self → Self.Setup };

    ghost history: { Self → List (Entry Self.Call Self.Reply) };

    /// Answers a call of the seat with this number. The history then has one more entry, with that number, the call
    /// and the reply. If memory runs out, nothing changes.
    fn step(&mut self, seat: u64, call: Self::Call) -> Result<Self::Reply, AllocError>
        requires { legal (setup self.old) (history self.old) }
        ensures legal { legal (setup self.new) (history self.new) }
        ensures history { MatchResult result (λ r. history self.new ≡ (seat, call, r) ∷ history self.old)
            (λ _. history self.new ≡ history self.old) }
        ensures setup { setup self.new ≡ setup self.old };

    /// How many entries the history has.
    fn places(&self) -> u64
        ensures { result ≡ length (history self.now) };

    /// The empty history is possible.
    ghost empty: { (s : Self.Setup) → legal s [] };
}

/// An answered call: the place of its entry in the history, from 0, and the reply.
#[derive(Drop)]
pub struct Placed<R> {
    pub place: u64,
    pub reply: R,
}

/// Why a call was not answered.
#[derive(Drop)]
pub enum TryRefused<C> {
    /// Another seat had the turn. The call comes back.
    Busy(C),
    /// The machine ran out of memory. The call is dropped.
    Memory,
}
