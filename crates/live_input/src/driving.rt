//! Waiting args, and what is due.
ghost use Rattle.std.specs.Prelude.{◌≡◌, ◌⊎◌, ℕ, ◌≤◌, ◌||◌, true, List, [], length, Option, None, IfOk, IsOk, OnOk, OnErr};
ghost use Rattle.dispatch_calls.specs.declared.call.Call.TheVariants.{Tick};
ghost use Rattle.dispatch_history.specs.Delivery.{is_reported_by};
ghost use Rattle.dispatch_history.specs.Effect.{Effect};
ghost use Rattle.dispatch_history.specs.Legal.{answered};
ghost use Rattle.dispatch_history.specs.Reply.{reply_to};
ghost use Rattle.dispatcher.specs.Access.{any_waits};
ghost use Rattle.dispatcher.specs.Memory.{MayCount};
ghost use Rattle.window_snapshot.specs.Mask.{mask_has};
ghost use Rattle.live_input.specs.Answers.{SameClients, SameRest, SameSeats};
ghost use Rattle.live_input.specs.Giving.{HandedInPart, notified};
ghost use Rattle.live_input.specs.Room.{MayCountMore, PumpsOver};
ghost use Rattle.live_input.specs.Settling.{Reaches, Settles, due_of, next_waiting, next_due};
ghost use Rattle.live_input.specs.Advancing.{Advances, Advanced};
ghost use Rattle.live_input.specs.Standing.{IsMaskOfHeld, IsOfHeld, LiveIs, is_plain};
ghost use Rattle.live_input.specs.State.{latest};

use crate::live::Live;
use crate::settling::{next_due, sooner, timeout};
use dispatch_calls::{Call, Reply};
use input_types::{Args, Moment};
use std::alloc::AllocError;

impl Live {
    /// Dispatches waiting args until none wait.
    #[tactic(auto, using(crate::proofs::Roomy::pumps_over_first))]
    pub(crate) fn dispatch_waiting(&mut self, now: Moment) -> Result<(), AllocError>
        ensures goes { (ds : List ℕ) (es : List Effect) → LiveIs ds es self.old
            → Reaches ds (next_waiting now) es self.new }
        ensures done { (ds : List ℕ) (es : List Effect) → LiveIs ds es self.old
            → OnOk result (Settles ds (next_waiting now) es self.new) }
        ensures room { (ds : List ℕ) (es : List Effect) → LiveIs ds es self.old → PumpsOver self.old self.new }
        ensures reserved { (ds : List ℕ) (es : List Effect) → LiveIs ds es self.old
            → length self.old.dispatcher.queue.waiting ≤ self.old.dispatcher.queue.pumps
            → MayCountMore (length self.old.dispatcher.queue.waiting) es → IsOk result }
        ensures rest { SameRest self.old self.new }
    {
        for made in 0..u64::MAX {
            if !self.dispatcher.is_waiting() {
                return Ok(());
            }
            self.pump(now)?;
        }
        Err(AllocError)
    }

    /// The first time at which something is due: a client that leaves a message unfinished for too long, or the repeat
    /// of a held key. While something that devices gave waits for memory, it is the clock.
    pub fn due(&self) -> Option<u64>
        ensures { (ds : List ℕ) (es : List Effect) → LiveIs ds es self.now → result ≡ due_of es self.now }
    {
        if waits(self.dispatcher.is_waiting(), &self.pending) {
            Some(self.clock.get())
        } else {
            sooner(timeout(&self.dispatcher), self.dispatcher.repeat_due())
        }
    }

    /// Hands in what still waits to be handed in, and then runs everything that is due up to now, one call after
    /// another, each at its time. Returns the mask of the channels whose clients were reported unresponsive, by this
    /// call or by earlier ones that ran out of memory, and are still open.
    pub fn advance(&mut self, now: Moment) -> Result<u64, AllocError>
        ensures ok { (ds : List ℕ) (es : List Effect) → LiveIs ds es self.old
            → IfOk result (λ mask. Advanced ds (latest now self.old)
            (notified ds (latest now self.old) es self.old.pending) mask self.old self.new) }
        ensures reported { (ds : List ℕ) (es : List Effect) → LiveIs ds es self.old
            → IfOk result (λ mask. IsMaskOfHeld mask self.old.seats) }
        ensures none { OnOk result (self.new.pending ≡ []) }
        ensures err { (ds : List ℕ) (es : List Effect) → LiveIs ds es self.old
            → OnErr result (HandedInPart ds (latest now self.old) es self.old.pending self.new
            ⊎ Advances ds (latest now self.old) (notified ds (latest now self.old) es self.old.pending)
            self.old self.new) }
        ensures still { (ds : List ℕ) (es : List Effect) → LiveIs ds es self.old → MayCount es
            → self.old.pending ≡ [] → next_due (latest now self.old) es ≡ None → IsOk result }
        ensures clock { self.new.clock ≡ latest now self.old }
        ensures devices { self.new.devices ≡ self.old.devices }
        ensures seats { SameSeats self.old self.new }
    {
        let now = self.raise(now);
        match self.hand_in(now) {
            Ok(_) => self.catch_up(now),
            Err(error) => Err(error),
        }
    }

    /// Runs everything that is due up to now.
    fn catch_up(&mut self, now: Moment) -> Result<u64, AllocError>
        ensures ok { (ds : List ℕ) (es : List Effect) → LiveIs ds es self.old
            → IfOk result (λ mask. Advanced ds now es mask self.old self.new) }
        ensures reported { (ds : List ℕ) (es : List Effect) → LiveIs ds es self.old
            → IfOk result (λ mask. IsMaskOfHeld mask self.old.seats) }
        ensures err { (ds : List ℕ) (es : List Effect) → LiveIs ds es self.old
            → OnErr result (Advances ds now es self.old self.new) }
        ensures still { (ds : List ℕ) (es : List Effect) → LiveIs ds es self.old → next_due now es ≡ None
            → IsOk result }
        ensures clients { SameClients self.old self.new }
        ensures clock { self.new.clock ≡ self.old.clock }
    {
        for made in 0..u64::MAX {
            let Some(call) = next_due(&self.dispatcher, now) else {
                let named = self.reported;
                self.reported = 0;
                return Ok(named);
            };
            self.note(&call)?;
        }
        Err(AllocError)
    }

    /// Makes one call, and keeps the channels that it reports unresponsive.
    pub(crate) fn note(&mut self, call: &Call) -> Result<(), AllocError>
        ensures after { (ds : List ℕ) (es : List Effect) → LiveIs ds es self.old → is_plain call.now ≡ true
            → IsOfHeld self.old.seats call.now → OnOk result (LiveIs ds (answered ds call.now es) self.new) }
        ensures named { (ds : List ℕ) (es : List Effect) → LiveIs ds es self.old
            → OnOk result ((c : ℕ) → mask_has self.new.reported c
            ≡ (mask_has self.old.reported c || is_reported_by call.now (reply_to es call.now) c)) }
        ensures clients { SameClients self.old self.new }
        ensures clock { self.new.clock ≡ self.old.clock }
        ensures err { OnErr result (self.new ≡ self.old) }
    {
        match self.apply(call) {
            Ok(reply) => {
                self.reported |= reported_by(call, &reply);
                Ok(())
            }
            Err(error) => Err(error),
        }
    }
}

/// Whether something waits for memory: accepted args, or args that must still be handed in.
#[tactic(auto, using(crate::proofs::Handing::some_wait))]
fn waits(is_waiting: bool, pending: &[Args]) -> bool
    ensures { result ≡ (is_waiting || any_waits pending.now) }
{
    is_waiting || !pending.is_empty()
}

/// The mask of the channels that a call reported unresponsive.
fn reported_by(call: &Call, reply: &Reply) -> u64
    ensures { (c : ℕ) → mask_has result c ≡ is_reported_by call.now reply.now c }
{
    match call {
        Call::Tick { .. } => named_in(reply),
        _ => 0,
    }
}

/// The mask of the channels in the reply to a tick.
fn named_in(reply: &Reply) -> u64
    ensures { (now c : ℕ) → mask_has result c ≡ is_reported_by (Tick now) reply.now c }
{
    match reply {
        Reply::Named(mask) => *mask,
        _ => 0,
    }
}
