//! Drains what channels were sent: writes the lines of the messages, and releases them.
ghost use Rattle.std.specs.Prelude.{◌≡◌, ◌≤◌, ◌==◌, ℕ, true, false, List, OnOk, length};
ghost use Rattle.dispatch_history.specs.Effect.{Effect, stream};
ghost use Rattle.dispatch_history.specs.Plan.{Plan as PlanView};
ghost use Rattle.dispatcher.specs.Access.{gone, is_opened};
ghost use Rattle.schedule.specs.declared.keeping.Lines.{Lines};
ghost use Rattle.schedule.specs.Released.{KeepsUnfinished};
ghost use Rattle.schedule.specs.State.{HasWith};
ghost use Rattle.schedule.specs.Making.{CountsAll, GoesOnAt, NoFewerMessages, Stays};

use crate::schedule::Schedule;
use crate::stream::drain_left;
use std::alloc::AllocError;

impl Schedule {
    /// Appends the lines of the messages that a removed channel has not released, and releases them all. A live channel
    /// does not change.
    pub(crate) fn drain_removed(&mut self, channel: u32) -> Result<(), AllocError>
        ensures after { Stays result self.old self.new }
        ensures keeps { (how : Lines) (plan : PlanView) (es : List Effect) → HasWith how plan es self.old
            → KeepsUnfinished es self.old.dispatcher → OnOk result (KeepsUnfinished es self.new.dispatcher) }
        ensures calls { self.new.calls ≡ self.old.calls }
        ensures messages { NoFewerMessages self.old self.new }
        ensures more { GoesOnAt self.old self.new }
    {
        let Some(counts) = self.dispatcher.counts(channel) else {
            return Ok(());
        };
        if counts.live {
            return Ok(());
        }
        let left = drain_left(&mut self.streams, &self.dispatcher, channel)?;
        self.messages = self.messages.saturating_add(left);
        self.dispatcher.release_all(channel);
        Ok(())
    }

    /// Appends the lines of the messages that a channel has not released, and releases them.
    pub(crate) fn drain(&mut self, channel: u32) -> Result<(), AllocError>
        ensures after { Stays result self.old self.new }
        ensures all { (how : Lines) (plan : PlanView) (es : List Effect) → HasWith how plan es self.old
            → is_opened es channel ≡ true
            → OnOk result (gone self.new.dispatcher channel ≡ length (stream es channel)) }
        ensures others { (c : ℕ) → 1 ≤ c → (c == channel) ≡ false
            → gone self.new.dispatcher c ≡ gone self.old.dispatcher c }
        ensures calls { self.new.calls ≡ self.old.calls }
        ensures messages { NoFewerMessages self.old self.new }
        ensures more { GoesOnAt self.old self.new }
    {
        if !self.dispatcher.has_messages(channel) {
            return Ok(());
        }
        let left = drain_left(&mut self.streams, &self.dispatcher, channel)?;
        self.messages = self.messages.saturating_add(left);
        self.dispatcher.release_each(channel);
        Ok(())
    }

    /// Appends the lines of the messages that all channels have not released, and releases them.
    pub(crate) fn drain_sent(&mut self) -> Result<(), AllocError>
        ensures after { Stays result self.old self.new }
        ensures counted { (how : Lines) (plan : PlanView) (es : List Effect) → HasWith how plan es self.old
            → CountsAll result es self.new }
        ensures calls { self.new.calls ≡ self.old.calls }
        ensures messages { NoFewerMessages self.old self.new }
        ensures more { GoesOnAt self.old self.new }
    {
        for place in 0..self.dispatcher.opened() {
            self.drain(place + 1)?;
        }
        Ok(())
    }
}
