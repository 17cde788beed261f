//! The calls that a run makes most often. A run that explains no causes makes them without building a `Call`.
ghost use Rattle.std.specs.Prelude.{◌≡◌, ◌-◌, true, false, List, IfOk};
ghost use Rattle.dispatch_calls.specs.declared.call.Call.{Call as CallView};
ghost use Rattle.dispatch_history.specs.Effect.{Effect};
ghost use Rattle.dispatch_history.specs.Legal.{answered};
ghost use Rattle.dispatch_history.specs.Plan.{Plan as PlanView};
ghost use Rattle.schedule.specs.declared.keeping.Lines.{Lines};
ghost use Rattle.schedule.specs.Making.{CountsOne, GoesOnAt, KeepsMessages, KeepsTwo, Makes, MakesTwo, ReleasesNone};
ghost use Rattle.schedule.specs.Released.{AllReleased};
ghost use Rattle.schedule.specs.State.{HasWith, ReadyWith};

use crate::schedule::Schedule;
use crate::stream::drain_each;
use dispatch_calls::Call;
use input_types::{Args, Moment};
use std::alloc::AllocError;

impl Schedule {
    /// Hands in args.
    pub(crate) fn notify(&mut self, now: Moment, args: &Args) -> Result<(), AllocError>
        ensures after { Makes result (CallView.Notify now args.now) self.old self.new }
        ensures calls { CountsOne result self.old self.new }
        ensures kept { KeepsMessages self.old self.new }
    {
        if self.causes.is_some() {
            let next = self.next;
            return self.apply(&Call::Notify { now, args: *args }, next);
        }
        match self.dispatcher.notify(now, args) {
            Ok(_) => {
                self.calls = self.calls.saturating_add(1);
                Ok(())
            }
            Err(error) => Err(error),
        }
    }

    /// Dispatches the first args that wait. If none wait, repeats a key that is held.
    pub(crate) fn pump(&mut self, now: Moment) -> Result<(), AllocError>
        ensures after { Makes result (CallView.Pump now) self.old self.new }
        ensures calls { CountsOne result self.old self.new }
        ensures kept { KeepsMessages self.old self.new }
    {
        if self.causes.is_some() {
            let next = self.next;
            return self.apply(&Call::Pump { now }, next);
        }
        match self.dispatcher.pump(now) {
            Ok(_) => {
                self.calls = self.calls.saturating_add(1);
                Ok(())
            }
            Err(error) => Err(error),
        }
    }

    /// Hands in args and dispatches them. Most args need not wait, and are not queued.
    pub(crate) fn notify_and_pump(&mut self, now: Moment, args: &Args) -> Result<(), AllocError>
        ensures after { MakesTwo result (CallView.Notify now args.now) (CallView.Pump now) self.old self.new }
        ensures keeps { KeepsTwo result (CallView.Notify now args.now) (CallView.Pump now) self.old self.new }
        ensures more { GoesOnAt self.old self.new }
    {
        let past = self.move_past(now, args)?;
        if past {
            return Ok(());
        }
        let done = self.dispatch(now, args)?;
        if done {
            return Ok(());
        }
        self.notify(now, args)?;
        self.pump(now)
    }

    /// Hands in a Move and dispatches it past the channels, if that is possible and no causes are explained: its lines
    /// are written, and no message is made. If it returns `false`, nothing changed.
    #[inline(always)]
    fn move_past(&mut self, now: Moment, args: &Args) -> Result<bool, AllocError>
        ensures done { (how : Lines) (plan : PlanView) (es : List Effect) → HasWith how plan es self.old
            → IfOk result (λ done. done ≡ true → HasWith how plan
            (answered plan.displays (CallView.Pump now) (answered plan.displays (CallView.Notify now args.now) es))
            self.new) }
        ensures undone { IfOk result (λ done. done ≡ false → self.new ≡ self.old) }
        ensures all { (how : Lines) (plan : PlanView) (es : List Effect) → ReadyWith how plan es self.old
            → IfOk result (λ done. done ≡ true → AllReleased
            (answered plan.displays (CallView.Pump now) (answered plan.displays (CallView.Notify now args.now) es))
            self.new.dispatcher) }
        ensures more { GoesOnAt self.old self.new }
    {
        if self.causes.is_some() {
            return Ok(false);
        }
        let Args::Motion(motion) = args else {
            return Ok(false);
        };
        let Some(sent) = self.dispatcher.move_past(now, args)? else {
            return Ok(false);
        };
        self.calls = self.calls.saturating_add(2);
        let count = drain_each(&mut self.streams, &self.dispatcher, motion.device, sent)?;
        self.messages = self.messages.saturating_add(count);
        Ok(true)
    }

    /// Hands in args and dispatches them, if they need not wait and no causes are explained. If it returns `false`,
    /// nothing changed.
    fn dispatch(&mut self, now: Moment, args: &Args) -> Result<bool, AllocError>
        ensures done { (how : Lines) (plan : PlanView) (es : List Effect) → HasWith how plan es self.old
            → IfOk result (λ done. done ≡ true → HasWith how plan
            (answered plan.displays (CallView.Pump now) (answered plan.displays (CallView.Notify now args.now) es))
            self.new) }
        ensures undone { IfOk result (λ done. done ≡ false → self.new ≡ self.old) }
        ensures gone { ReleasesNone self.old self.new }
        ensures more { GoesOnAt self.old self.new }
    {
        if self.causes.is_some() {
            return Ok(false);
        }
        let done = self.dispatcher.dispatch(now, args)?;
        if !done {
            return Ok(false);
        }
        self.calls = self.calls.saturating_add(2);
        Ok(true)
    }

    /// Finishes a message of a channel.
    pub(crate) fn finish_one(
        &mut self,
        now: Moment,
        channel: u32,
        seq: u64,
    ) -> Result<(), AllocError>
        ensures after { Makes result (CallView.Finish now channel seq) self.old self.new }
        ensures calls { CountsOne result self.old self.new }
        ensures kept { KeepsMessages self.old self.new }
    {
        if self.causes.is_some() {
            let next = self.next;
            return self.apply(&Call::Finish { now, channel, seq }, next);
        }
        match self.dispatcher.finish(now, channel, seq) {
            Ok(_) => {
                self.calls = self.calls.saturating_add(1);
                Ok(())
            }
            Err(error) => Err(error),
        }
    }
}
