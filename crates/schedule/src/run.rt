//! The run from its beginning to its end.
ghost use Rattle.std.specs.Prelude.{◌≡◌, ◌++◌, true, false, List, [], ◌∷◌, OnOk};
ghost use Rattle.dispatch_history.specs.Effect.{Effect};
ghost use Rattle.dispatch_history.specs.Plan.{Plan as PlanView, Cooked};
ghost use Rattle.schedule.specs.declared.keeping.Lines.{Lines};
ghost use Rattle.schedule.specs.Planned.{IsRun, plan_of};
ghost use Rattle.schedule.specs.Run.{IsWithin, IsTooLong};
ghost use Rattle.schedule.specs.State.{RanWith, CompletedWith, ReadyWith, is_over};
ghost use Rattle.schedule.specs.Ends.{last_step};
ghost use Rattle.schedule.specs.Making.{GoesOn};

use crate::plan::{Plan, Step};
use crate::schedule::Schedule;
use input_types::{Args, Moment};
use std::alloc::AllocError;

/// The most calls of a run, and the most messages of all its channels together.
const LIMIT: u64 = 4_000_000;

/// The time of the latest step.
fn last_step(steps: &[Step]) -> Moment
    ensures { result ≡ last_step 0 steps.now }
{
    let mut last = Moment::zero();
    for step in steps {
        last = last.later(step.call.moment());
    }
    last
}

impl Schedule {
    /// Whether there were more calls or more messages than the limit.
    fn is_over(&self) -> bool
        ensures { result ≡ is_over self.now }
    {
        LIMIT < self.calls || LIMIT < self.messages
    }

    /// Whether there were more than 4,000,000 calls, or more than 4,000,000 messages of all channels together.
    pub fn is_too_long(&self) -> bool
        ensures over { result ≡ is_over self.now }
        ensures too_long { (how : Lines) (plan : PlanView) (es : List Effect) → ReadyWith how plan es self.now
            → result ≡ true
            → IsTooLong es }
        ensures within { (how : Lines) (plan : PlanView) (es : List Effect) → ReadyWith how plan es self.now
            → result ≡ false → IsWithin es }
    {
        self.is_over()
    }

    /// Runs everything that is due before these args, and hands them in. A run that has become too long does nothing
    /// more.
    ///
    /// If memory runs out, the dispatcher is as after what was done up to then, and nothing else is said of the run.
    ///
    /// Usually finishes by owners who finish at once are due, so a loop of its own runs those that come first.
    #[inline(never)]
    pub fn take(&mut self, plan: &Plan, moment: Moment, args: &Args) -> Result<(), AllocError>
        requires { IsRun plan.now }
        ensures ran { (how : Lines) (given : List Cooked) → RanWith how (plan_of plan.now) given self.old
            → OnOk result (RanWith how (plan_of plan.now)
            (given ++ record { moment = moment; args = args.now } ∷ []) self.new) }
        ensures more { GoesOn self.old self.new }
    {
        self.latest = self.latest.later(moment);
        'quick: while !self.is_too_long() {
            if !self.finish_at_once(plan, moment)? {
                break;
            }
        }
        'rounds: while !self.is_too_long() {
            if !self.advance(plan, moment)? {
                return self.hand_in(moment, args);
            }
        }
        Ok(())
    }

    /// Runs everything that is due up to the end, once all args came. If memory runs out, the dispatcher is as after
    /// what was done up to then, and nothing else is said of the run.
    pub fn finish(&mut self, plan: &Plan) -> Result<(), AllocError>
        requires { IsRun plan.now }
        ensures completed { (how : Lines) (given : List Cooked) → RanWith how (plan_of plan.now) given self.old
            → OnOk result (CompletedWith how (plan_of plan.now) given self.new) }
        ensures more { GoesOn self.old self.new }
    {
        let end = plan.until.later(last_step(&plan.steps).later(self.latest));
        'rounds: while !self.is_too_long() {
            if !self.advance(plan, end)? {
                return Ok(());
            }
        }
        Ok(())
    }
}
