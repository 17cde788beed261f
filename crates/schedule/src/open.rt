//! The beginning of a run.
ghost use Rattle.std.specs.Prelude.{◌≡◌, List, [], IfOk, OnOk};
ghost use Rattle.dispatch_calls.specs.declared.call.Call.{Call as CallView};
ghost use Rattle.dispatch_history.specs.Effect.{Effect, past_of};
ghost use Rattle.dispatch_history.specs.Legal.{answered};
ghost use Rattle.dispatch_history.specs.Ordered.{begun, scripted};
ghost use Rattle.dispatch_history.specs.Plan.{Plan as PlanView};
ghost use Rattle.schedule.specs.declared.keeping.Lines.{Lines as LinesView};
ghost use Rattle.schedule.specs.Planned.{IsRun, plan_of};
ghost use Rattle.schedule.specs.State.{HasWith, RanWith};

use crate::keeping::Lines;
use crate::plan::Plan;
use crate::schedule::Schedule;
use crate::stream::empty_streams;
use dispatch_calls::{Call, Terms};
use dispatcher::Dispatcher;
use input_types::Moment;
use std::alloc::{AllocError, Global};

/// A run before its first call, which keeps these lines.
fn unopened(alloc: Global, plan: &Plan, lines: Lines) -> Result<Schedule, AllocError>
    ensures has { IfOk result (HasWith lines (plan_of plan.now) []) }
    ensures messages { IfOk result (λ s. s.messages ≡ 0) }
    ensures latest { IfOk result (λ s. s.latest ≡ 0) }
{
    let dispatcher = Dispatcher::new(alloc, &plan.displays)?;
    let streams = empty_streams(alloc, lines.texts(plan.channels.len()))?;
    Ok(Schedule {
        dispatcher,
        streams,
        causes: lines.causes(alloc),
        next: 0,
        calls: 0,
        messages: 0,
        latest: Moment::zero(),
    })
}

impl Schedule {
    /// A run to which no args came yet, which keeps these lines. Its channels are open.
    pub fn new(alloc: Global, plan: &Plan, lines: Lines) -> Result<Schedule, AllocError>
        requires { IsRun plan.now }
        ensures { IfOk result (RanWith lines (plan_of plan.now) []) }
    {
        let run = Schedule::begin(alloc, plan, lines)?;
        Ok(run)
    }

    /// A run of any order of calls, which keeps these lines. Its channels are open.
    pub fn begin(alloc: Global, plan: &Plan, lines: Lines) -> Result<Schedule, AllocError>
        requires { IsRun plan.now }
        ensures has { IfOk result (HasWith lines (plan_of plan.now) (begun (plan_of plan.now))) }
        ensures messages { IfOk result (λ s. s.messages ≡ 0) }
        ensures latest { IfOk result (λ s. s.latest ≡ 0) }
    {
        let mut run = unopened(alloc, plan, lines)?;
        for channel in &plan.channels {
            run.open(channel.terms)?;
        }
        Ok(run)
    }

    /// Opens a channel before anything else is done.
    fn open(&mut self, terms: Terms) -> Result<(), AllocError>
        ensures after { (how : LinesView) (plan : PlanView) (es : List Effect) → HasWith how plan es self.old
            → scripted (past_of es) ≡ 0
            → OnOk result (HasWith how plan (answered plan.displays (CallView.Open terms) es) self.new) }
        ensures latest { self.new.latest ≡ self.old.latest }
    {
        self.make(&Call::Open { terms }, 0)
    }
}
