//! Which channels may have unfinished messages, and from when they may be due.
ghost use Rattle.std.specs.Prelude.{◌≡◌, ℕ, ◌≤◌, true, false, None, Some, List};
ghost use Rattle.window_snapshot.specs.Mask.{mask_has};
ghost use Rattle.dispatch_history.specs.Delivery.{oldest};
ghost use Rattle.dispatch_history.specs.Due.{Due, first_due};
ghost use Rattle.dispatch_history.specs.Effect.{Effect, past_of};
ghost use Rattle.dispatch_history.specs.History.{live};
ghost use Rattle.dispatcher.specs.Dispatching.{IsAfter};

use super::Dispatcher;

impl Dispatcher {
    /// A mask of live channels. No other live channel has a message that is published and not finished.
    pub fn unfinished(&self) -> u64
        ensures live { (es : List Effect) → IsAfter es self.now
            → (c : ℕ) → mask_has result c ≡ true → live (past_of es) c ≡ true }
        ensures none { (es : List Effect) → IsAfter es self.now
            → (c : ℕ) → live (past_of es) c ≡ true → mask_has result c ≡ false → oldest es c ≡ None }
    {
        self.tables.routing.channels.unfinished()
    }

    /// A time before which no channel is due to be reported. It does not search.
    pub fn due_from(&self) -> u64
        ensures { (es : List Effect) → IsAfter es self.now
            → (due : Due) → first_due es ≡ Some due → result ≤ due.moment }
    {
        self.tables.routing.channels.due_from()
    }
}
