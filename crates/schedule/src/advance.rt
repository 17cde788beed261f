//! The rounds of a run.
ghost use Rattle.std.specs.Prelude.{Some, IfSome, option_map, ◌≡◌, ◌≤◌, ◌<◌, ◌+◌, ◌-◌, ◌^◌, true, false, List, IfOk, OnOk, None};
ghost use Rattle.dispatch_calls.specs.declared.call.Call.{Call as CallView};
ghost use Rattle.dispatch_history.specs.Effect.{Effect, past_of};
ghost use Rattle.dispatch_history.specs.Ordered.{soonest, is_scripted, round, scripted};
ghost use Rattle.dispatch_history.specs.Plan.{Plan as PlanView};
ghost use Rattle.schedule.specs.declared.keeping.Lines.{Lines};
ghost use Rattle.schedule.specs.Choosing.{Advances, NoneOverdue};
ghost use Rattle.schedule.specs.DueView.{call_of, candidate_of};
ghost use Rattle.schedule.specs.Next.{fore};
ghost use Rattle.schedule.specs.Kinds.{is_receiving, is_opening, is_finishing};
ghost use Rattle.schedule.specs.Handing.{handing, single};
ghost use Rattle.schedule.specs.Planned.{IsRun, plan_of};
ghost use Rattle.schedule.specs.State.{ReadyWith};
ghost use Rattle.schedule.specs.Making.{CountsMore, GoesOnAt, MakesRound};

use crate::choose::{first_step, next_at_once, next_due};
use crate::due::{AtOnce, Due, What};
use crate::plan::Plan;
use crate::schedule::Schedule;
use dispatch_calls::Call;
use input_types::{Args, Moment};
use std::alloc::AllocError;

impl Schedule {
    /// One round: makes a call that opens, receives and finishes nothing, after which this many steps were made, and
    /// then receives everything that is published.
    fn round(&mut self, call: &Call, next: usize) -> Result<(), AllocError>
        ensures after { (how : Lines) (plan : PlanView) (es : List Effect) → ReadyWith how plan es self.old
            → is_receiving call.now ≡ false
            → is_opening call.now ≡ false
            → is_finishing call.now ≡ false
            → next ≡ is_scripted call.now + scripted (past_of es)
            → OnOk result (ReadyWith how plan (round plan es (single call.now)) self.new) }
        ensures calls { OnOk result (CountsMore self.old self.new) }
        ensures more { GoesOnAt self.old self.new }
    {
        self.make(call, next)?;
        self.receive_all()
    }

    /// The round of a finish. After it, only the owner of its channel may have more to receive.
    #[inline(always)]
    fn finish_round(&mut self, now: Moment, channel: u32, seq: u64) -> Result<(), AllocError>
        ensures after { MakesRound result (single (CallView.Finish now channel seq)) self.old self.new }
        ensures calls { OnOk result (CountsMore self.old self.new) }
        ensures more { GoesOnAt self.old self.new }
    {
        self.finish_one(now, channel, seq)?;
        self.receive(channel)
    }

    /// The round of what is due at this time.
    fn due_round(&mut self, due: Due, at: Moment) -> Result<(), AllocError>
        ensures after { MakesRound result (single (call_of at due.what)) self.old self.new }
        ensures calls { OnOk result (CountsMore self.old self.new) }
        ensures more { GoesOnAt self.old self.new }
    {
        let next = self.next;
        match due.what {
            What::Finish { channel, seq } => self.finish_round(at, channel, seq),
            What::Tick => self.round(&Call::Tick { now: at }, next),
            What::Repeat => self.round(&Call::Pump { now: at }, next),
        }
    }

    /// The round that hands in args.
    pub(crate) fn hand_in(&mut self, moment: Moment, args: &Args) -> Result<(), AllocError>
        ensures after { MakesRound result (handing (record { moment = moment; args = args.now })) self.old self.new }
        ensures more { GoesOnAt self.old self.new }
    {
        self.notify_and_pump(moment, args)?;
        self.receive_all()
    }

    /// The round of a step, if it is due by a time. Returns whether it was.
    fn advance_step(&mut self, call: &Call, until: Moment) -> Result<bool, AllocError>
        requires { self.old.next < 2 ^ 64 - 1 }
        ensures after { (how : Lines) (plan : PlanView) (es : List Effect) → ReadyWith how plan es self.old
            → is_scripted call.now ≡ 1
            → soonest (fore plan es) ≡ Some (single call.now)
            → IfOk result (λ b. Advances how plan until es self.old self.new b) }
        ensures calls { IfOk result (λ b. b ≡ true → CountsMore self.old self.new) }
        ensures more { GoesOnAt self.old self.new }
    {
        if until.get() < call.moment().get() {
            return Ok(false);
        }
        let next = self.next + 1;
        self.round(call, next)?;
        Ok(true)
    }

    /// The round of what is due, if it is due by a time. Returns whether it was.
    fn advance_due(&mut self, due: Option<Due>, until: Moment) -> Result<bool, AllocError>
        ensures after { (how : Lines) (plan : PlanView) (es : List Effect) → ReadyWith how plan es self.old
            → soonest (fore plan es) ≡ option_map candidate_of due
            → IfOk result (λ b. Advances how plan until es self.old self.new b) }
        ensures calls { IfOk result (λ b. b ≡ true → CountsMore self.old self.new) }
        ensures more { GoesOnAt self.old self.new }
    {
        let Some(due) = due else {
            return Ok(false);
        };
        if until.get() < due.moment {
            return Ok(false);
        }
        let at = Moment::new(due.moment).unwrap();
        self.due_round(due, at)?;
        Ok(true)
    }

    /// One round of anything but args, if something is due by a time. Returns whether something was.
    pub(crate) fn advance(&mut self, plan: &Plan, until: Moment) -> Result<bool, AllocError>
        requires { IsRun plan.now }
        ensures after { (how : Lines) (es : List Effect) → ReadyWith how (plan_of plan.now) es self.old
            → NoneOverdue (plan_of plan.now).channels es
            → IfOk result (λ b. Advances how (plan_of plan.now) until es self.old self.new b) }
        ensures calls { IfOk result (λ b. b ≡ true → CountsMore self.old self.new) }
        ensures more { GoesOnAt self.old self.new }
    {
        let due = next_due(&self.dispatcher, &plan.channels);
        match first_step(&plan.steps, self.next, due) {
            Some(step) => self.advance_step(&step.call, until),
            None => self.advance_due(due, until),
        }
    }

    /// The channel, message and time of the next finish, if its owner finishes at once and the finish is due by a time
    /// and before everything else.
    #[inline(always)]
    fn due_at_once(&self, plan: &Plan, until: Moment) -> Option<AtOnce>
        ensures { (how : Lines) (es : List Effect) → ReadyWith how (plan_of plan.now) es self.now
            → NoneOverdue (plan_of plan.now).channels es
            → IfSome result (λ found. (found.moment ≤ until)
            × (soonest (fore (plan_of plan.now) es)
            ≡ Some (single (CallView.Finish found.moment found.channel found.seq)))) }
    {
        let found = next_at_once(&self.dispatcher, &plan.channels)?;
        let at = found.moment.get();
        if until.get() < at
            || self.dispatcher.due_from() < at
            || self.dispatcher.repeat_due().unwrap_or(at) < at
        {
            return None;
        }
        let Some(step) = plan.steps.get(self.next) else {
            return Some(found);
        };
        if step.call.moment().get() < at {
            None
        } else {
            Some(found)
        }
    }

    /// One round, if what is due next is a finish by an owner who finishes at once. Most rounds are of this kind. If it
    /// makes none, a round of another kind may be due.
    #[inline(always)]
    pub(crate) fn finish_at_once(&mut self, plan: &Plan, until: Moment) -> Result<bool, AllocError>
        ensures after { (how : Lines) (es : List Effect) → ReadyWith how (plan_of plan.now) es self.old
            → NoneOverdue (plan_of plan.now).channels es
            → IfOk result (λ b. b ≡ true → Advances how (plan_of plan.now) until es self.old self.new true) }
        ensures stays { IfOk result (λ b. b ≡ false → self.new ≡ self.old) }
        ensures calls { IfOk result (λ b. b ≡ true → CountsMore self.old self.new) }
        ensures more { GoesOnAt self.old self.new }
    {
        let Some(found) = self.due_at_once(plan, until) else {
            return Ok(false);
        };
        self.finish_round(found.moment, found.channel, found.seq)?;
        Ok(true)
    }
}
