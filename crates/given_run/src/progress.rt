//! A run of a given order, line by line.
ghost use Rattle.std.specs.Prelude.{◌≡◌, ◌+◌, ◌-◌, ◌^◌, ◌<◌, ℕ, false, List, IfOk, OnOk, Some, map, slice_get};
ghost use Rattle.dispatch_calls.specs.declared.call.Call.{Call as CallView};
ghost use Rattle.dispatch_history.specs.Effect.{Effect};
ghost use Rattle.dispatch_history.specs.Legal.{answered};
ghost use Rattle.dispatch_history.specs.Ordered.{begun, is_scripted};
ghost use Rattle.dispatch_history.specs.Plan.{Plan as PlanView, Cooked as CookedView, ReaderLine, ScriptLine, ScriptStep};
ghost use Rattle.stream_text.specs.declared.order_line.OrderLine.{OrderLine as LineView};
ghost use Rattle.given_run.specs.Following.{Comes, Makes};
ghost use Rattle.given_run.specs.Planned.{cooked_of, whole_plan};
ghost use Rattle.stream_text.specs.OrderAsks.{line_of};
ghost use Rattle.schedule.specs.Kinds.{is_opening, is_receiving};
ghost use Rattle.schedule.specs.Planned.{IsRun, step_of};

use crate::cooked::Cooked;
use crate::lanes::Lanes;
use dispatch_calls::Call;
use input_types::Moment;
use schedule::{Lines, Plan, Schedule};
use std::alloc::{AllocError, Global};
use std::marker::Model;
use stream_text::{Order, OrderLine};

/// A run, and how much of its plan it used.
#[derive(Drop)]
pub(crate) struct Progress {
    pub(crate) run: Schedule,
    /// How many args were handed in.
    taken: usize,
    lanes: Lanes,
}

impl Model for Progress {
    ghost use Rattle.given_run.specs.State.{GivenState};

    ghost Value = { GivenState };

    ghost view = { λ g. record { run = g.run; taken = g.taken; lanes = g.lanes } };
}

impl Progress {
    /// A run whose channels are open, and which followed no line yet.
    pub(crate) fn new(alloc: Global, plan: &Plan) -> Result<Progress, AllocError>
        requires { IsRun plan.now }
        ensures { (cooked : List Cooked) → IfOk result (Comes (whole_plan plan.now cooked) 0
            (begun (whole_plan plan.now cooked)) (map cooked_of cooked) (map step_of plan.now.steps.items)) }
    {
        let run = Schedule::begin(alloc, plan, Lines::Kept)?;
        let lanes = Lanes::new(alloc)?;
        Ok(Progress {
            run,
            taken: 0,
            lanes,
        })
    }

    /// Makes a call that uses up nothing of the plan.
    fn call(&mut self, call: &Call) -> Result<(), AllocError>
        requires plain { is_receiving call.now ≡ false }
        requires opens_not { is_opening call.now ≡ false }
        requires scripted_not { is_scripted call.now ≡ 0 }
        ensures { (plan : PlanView) (n : ℕ) (es : List Effect) (cs : List CookedView) (ss : List ScriptStep)
            → Comes plan n es cs ss self.old
            → OnOk result (Comes plan (n + 1) (answered plan.displays call.now es) cs ss self.new) }
    {
        let next = self.run.steps_made();
        self.run.step(call, next)
    }

    /// The owner of a channel receives its next message.
    fn receive(&mut self, channel: u32) -> Result<(), AllocError>
        ensures { (plan : PlanView) (n : ℕ) (es : List Effect) (cs : List CookedView) (ss : List ScriptStep)
            → Comes plan n es cs ss self.old
            → OnOk result (Comes plan (n + 1) (answered plan.displays (CallView.Receive channel) es) cs ss self.new) }
    {
        self.run.receive_next(channel)
    }

    /// Hands in the next args, if any are left.
    fn reader(&mut self, cooked: &[Cooked]) -> Result<bool, AllocError>
        ensures { (plan : PlanView) (n : ℕ) (es : List Effect) (cs : List CookedView) (ss : List ScriptStep)
            → Comes plan n es cs ss self.old
            → plan.cooked ≡ map cooked_of cooked.now → IfOk result (Makes plan ReaderLine n es cs ss self.new) }
    {
        let Some(next) = cooked.get(self.taken) else {
            return Ok(false);
        };
        let notify = Call::Notify {
            now: next.moment,
            args: next.args,
        };
        let made = self.run.steps_made();
        self.run.step(&notify, made)?;
        self.taken += 1;
        Ok(true)
    }

    /// Makes the next step of a lane, if one is left.
    fn script(&mut self, plan: &Plan, lane: u8) -> Result<bool, AllocError>
        requires run { IsRun plan.now }
        requires few { self.old.run.next < 2 ^ 64 - 1 }
        ensures { (cooked : List Cooked) (n : ℕ) (es : List Effect) (cs : List CookedView) (ss : List ScriptStep)
            → Comes (whole_plan plan.now cooked) n es cs ss self.old
            → IfOk result (Makes (whole_plan plan.now cooked) (ScriptLine lane) n es cs ss self.new) }
    {
        let Some(step) = self.lanes.next(&plan.steps, lane) else {
            return Ok(false);
        };
        let made = self.run.steps_made();
        self.run.step(&step.call, made + 1)?;
        Ok(true)
    }

    /// Follows a line. Returns false if its args or its step do not exist.
    pub(crate) fn line(
        &mut self,
        plan: &Plan,
        cooked: &[Cooked],
        line: OrderLine,
    ) -> Result<bool, AllocError>
        requires run { IsRun plan.now }
        requires few { self.old.run.next < 2 ^ 64 - 1 }
        ensures { (n : ℕ) (es : List Effect) (cs : List CookedView) (ss : List ScriptStep)
            → Comes (whole_plan plan.now cooked.now) n es cs ss self.old
            → IfOk result (Makes (whole_plan plan.now cooked.now) (line_of line) n es cs ss self.new) }
    {
        let now = Moment::zero();
        match line {
            OrderLine::Reader => return self.reader(cooked),
            OrderLine::Script { lane } => return self.script(plan, lane),
            OrderLine::Pump => self.call(&Call::Pump { now })?,
            OrderLine::Tick => self.call(&Call::Tick { now })?,
            OrderLine::Receive { channel } => self.receive(channel)?,
            OrderLine::Finish { channel, seq } => self.call(&Call::Finish { now, channel, seq })?,
        }
        Ok(true)
    }

    /// Follows the line at an index of an order. Returns false if its args or its step do not exist.
    pub(crate) fn line_at(
        &mut self,
        plan: &Plan,
        cooked: &[Cooked],
        order: &Order,
        at: usize,
    ) -> Result<bool, AllocError>
        requires run { IsRun plan.now }
        requires few { self.old.run.next < 2 ^ 64 - 1 }
        ensures { (line : LineView) (n : ℕ) (es : List Effect) (cs : List CookedView) (ss : List ScriptStep)
            → slice_get order.now at ≡ Some line → Comes (whole_plan plan.now cooked.now) n es cs ss self.old
            → IfOk result (Makes (whole_plan plan.now cooked.now) (line_of line) n es cs ss self.new) }
    {
        match order.get(at) {
            Some(line) => self.line(plan, cooked, line),
            None => Ok(false),
        }
    }
}
