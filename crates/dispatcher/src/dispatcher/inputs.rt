//! Args that are handed in, and pumps that dispatch them.
ghost use Rattle.std.specs.Prelude.{◌≡◌, ◌<◌, ◌≤◌, ◌+◌, ◌^◌, ◌↔◌, true, false, List, IfOk, OnErr};
ghost use Rattle.dispatch_calls.specs.declared.call.Call.TheVariants.{Notify, Pump};
ghost use Rattle.dispatch_calls.specs.declared.reply.Reply.TheVariants.{Inconsistent};
ghost use Rattle.dispatch_history.specs.Effect.{Effect};
ghost use Rattle.dispatch_history.specs.PointerOf.{RisesIn};
ghost use Rattle.dispatcher.specs.Answered.{Answers, AnswersCalm, AnswersPumped, AnswersReserved, NeedNotWait, StepsTwice};
ghost use Rattle.dispatcher.specs.Dispatching.{IsAfter};
ghost use Rattle.dispatcher.specs.Outcomes.{reply_of};

use super::Dispatcher;
use crate::outcome::Outcome;
use crate::pumping::{dispatch_at_once, dispatch_first, idle};
use input_types::{Args, Moment};
use std::alloc::AllocError;

impl Dispatcher {
    /// Queues args of a device behind those that wait, if they may follow what is down on it. Out of memory changes
    /// nothing.
    pub fn notify(&mut self, now: Moment, args: &Args) -> Result<Outcome, AllocError>
        ensures ok { IfOk result (λ outcome. Answers (Notify now args.now) (reply_of outcome) self.old self.new) }
        ensures err { OnErr result (self.new ≡ self.old) }
        ensures reserved { AnswersReserved (Notify now args.now) self.old result }
        ensures pumps { self.new.queue.pumps ≡ self.old.queue.pumps }
    {
        self.tables.queueing.may_step()?;
        rises(now, args);
        match self.tables.queueing.plan(args) {
            Ok(change) => {
                self.tables.queueing.accept(now, args, &change)?;
                Ok(Outcome::Taken)
            }
            Err(refused) => {
                let outcome = refusal(refused.pointers, refused.key_down);
                self.tables.queueing.step(now);
                Ok(outcome)
            }
        }
    }

    /// Dispatches the first args that wait; if none wait, repeats a held key. Out of memory changes nothing.
    pub fn pump(&mut self, now: Moment) -> Result<Outcome, AllocError>
        ensures ok { IfOk result (λ outcome. Answers (Pump now) (reply_of outcome) self.old self.new) }
        ensures err { OnErr result (self.new ≡ self.old) }
        ensures calm { AnswersCalm (Pump now) self.old result }
        ensures pumped { AnswersPumped (Pump now) self.old result }
        ensures pumps { self.old.queue.pumps ≤ self.new.queue.pumps + 1 }
    {
        self.tables.queueing.may_step()?;
        if self.tables.queueing.first().is_none() {
            return idle(&mut self.tables, now);
        }
        dispatch_first(&mut self.tables, now)?;
        Ok(Outcome::Dispatched)
    }

    /// Accepts args and dispatches them, as `notify` and then `pump` do, if they need not wait: no args wait, and these
    /// may follow what is down on their device. They are not copied. If it returns `false`, nothing changed. Out of
    /// memory changes nothing.
    pub fn dispatch(&mut self, now: Moment, args: &Args) -> Result<bool, AllocError>
        ensures done { IfOk result (λ done. done ≡ true
            → StepsTwice (Notify now args.now) (Pump now) self.old self.new) }
        ensures undone { IfOk result (λ done. done ≡ false → self.new ≡ self.old) }
        ensures exact { (es : List Effect) → IsAfter es self.old
            → IfOk result (λ done. (done ≡ true) ↔ NeedNotWait es now args.now) }
        ensures err { OnErr result (self.new ≡ self.old) }
    {
        self.tables.queueing.may_step_twice()?;
        if self.tables.queueing.first().is_some() {
            return Ok(false);
        }
        rises(now, args);
        match self.tables.queueing.plan(args) {
            Ok(change) => {
                dispatch_at_once(&mut self.tables, now, args, &change)?;
                Ok(true)
            }
            Err(_) => Ok(false),
        }
    }
}

/// The result of args that may not follow.
fn refusal(pointers: u32, key_down: bool) -> Outcome
    ensures reply { reply_of result ≡ Inconsistent pointers key_down }
    ensures small { pointers < 2 ^ 32 }
{
    Outcome::Inconsistent { pointers, key_down }
}

/// The pointers of args have rising ids, as those of every motion. It does nothing; a call of it brings this fact,
/// which contracts cannot see from the list alone.
pub(crate) fn rises(now: Moment, args: &Args)
    ensures { RisesIn (Notify now args.now) }
{
    if let Args::Motion(motion) = args {
        let _count = motion.pointers.len();
    }
}
