//! `check`: the run of an order that a file gives.
ghost use Rattle.std.specs.Prelude.{◌≡◌, ◌+◌, ◌<◌, ◌≤◌, List, Ok, Err, length, map, IsTrue, IfOk, IfErr};
ghost use Rattle.raw_events.specs.declared.event.RawEvent.{RawEvent as Event};
ghost use Rattle.given_run.specs.Planned.{cooked_of};
ghost use Rattle.schedule.specs.Planned.{IsRun};
ghost use Rattle.session_plan.specs.Plan.{PlanData};
ghost use Rattle.session_plan.specs.Valid.{IsPlan};
ghost use Rattle.command_words.specs.Command.{check};
ghost use Rattle.command_words.specs.CommandView.{recorded_view};
ghost use Rattle.command_files.specs.Inputs.{AreAccepted};
ghost use Rattle.command_files.specs.Keeping.{CanReadBoth, KeepsFiles};
ghost use Rattle.command_answers.specs.Program.{Answers, RefusesCommand};
ghost use Rattle.session_plan.specs.View.{plan_view};
ghost use Rattle.command_answers.specs.Plan.{IsPlanned};
ghost use Rattle.command_answers.specs.Checked.{IsFollowed, OrderAnswers};
ghost use Rattle.command_files.specs.Planned.{given};
ghost use Rattle.command_files.specs.Refusing.{RefusesSo};

use crate::given::{GIVEN_LIMIT, cook_events};
use crate::plan::{Planned, plan_run};
use crate::texts::text_of;
use command_files::{
    OrderError, Refusal, Subject, numbered_devices, read_events, read_order, read_session,
    readers_of,
};
use command_words::Recorded;
use given_run::{Cooked, Fault, followed};
use outside_io::Files;
use raw_events::RawEvent;
use session_plan::Plan as Session;
use std::alloc::Global;
use stream_text::Order;
use text_pieces::Pieces;

/// The most lines of an order.
const LINE_LIMIT: usize = 8000000;

/// The refusal of an order in which this many lines come before one whose args or step do not exist.
fn no_step(before: usize) -> Refusal
    requires { before < 8000000 }
    ensures { result ≡ Refusal.Order (OrderError.NoStep (before + 2)) }
{
    Refusal::Order(OrderError::NoStep {
        line: before as u64 + 2,
    })
}

/// Makes the calls of an order, and the text of their result.
fn order_run(
    alloc: Global,
    planned: Planned,
    all: &[Cooked],
    order: &Order,
) -> Result<Pieces, Refusal>
    requires run { IsRun planned.plan }
    requires few { length planned.channels.items ≤ 64 }
    ensures ok { (p : PlanData) (past : List Event) → IsPlanned p planned → map cooked_of all.now ≡ given p past
        → IfOk result (λ text. IsFollowed p past order.now (Ok text)) }
    ensures err { (p : PlanData) (past : List Event) → IsPlanned p planned → map cooked_of all.now ≡ given p past
        → IfErr result (RefusesSo (λ r. IsFollowed p past order.now (Err r))) }
{
    if all.len() > GIVEN_LIMIT {
        return Err(Refusal::TooLong(Subject::Run));
    }
    if order.len() > LINE_LIMIT {
        return Err(Refusal::TooLong(Subject::Run));
    }
    match followed(alloc, &planned.plan, all, order) {
        Ok(run) => {
            let mut run = run;
            Ok(text_of(alloc, &planned.channels, &mut run)?)
        }
        Err(Fault::NoStep { before }) => Err(no_step(before)),
        Err(Fault::Memory) => Err(Refusal::NoMemory),
    }
}

/// The text of an order for a session and the events of a recording, or why there is none.
fn order_text(
    alloc: Global,
    session: Session,
    events: &[RawEvent],
    order: &Order,
) -> Result<Pieces, Refusal>
    requires { IsPlan session }
    ensures ok { IfOk result (λ text. OrderAnswers (plan_view session) events.now order.now (Ok text)) }
    ensures err { IfErr result (RefusesSo (λ r. OrderAnswers (plan_view session) events.now order.now (Err r))) }
{
    let mut readers = readers_of(alloc, &session)?;
    let all = cook_events(alloc, events, &mut readers)?;
    let planned = plan_run(alloc, session)?;
    order_run(alloc, planned, &all, order)
}

/// Reads and judges the files of `check`, and makes the text.
pub fn answer_check<F: Files>(
    alloc: Global,
    files: &mut F,
    names: Recorded<'_>,
    order: &str,
) -> Result<Pieces, Refusal>
    requires files { CanReadBoth F.Files files.old names.session.now names.events.now }
    requires order { AreAccepted (F.entries files.old) names.session.now names.events.now
        → IsTrue (F.lends files.old order.now) }
    ensures ok { IfOk result (λ text. Answers (F.entries files.old) (F.readings files.old) (F.readings files.new)
        (check (recorded_view names.entry) order.now) (Ok text)) }
    ensures err { IfErr result (RefusesCommand (F.entries files.old) (F.readings files.old) (F.readings files.new)
        (check (recorded_view names.entry) order.now) (F.faults files.old) (F.faults files.new)) }
    ensures files { KeepsFiles F.Files files.old files.new }
{
    let session = read_session(alloc, files, names.session)?;
    let devices = numbered_devices(alloc, &session)?;
    let events = read_events(alloc, files, &devices, names.events)?;
    let order = read_order(alloc, files, order)?;
    order_text(alloc, session, &events, &order)
}
