//! `work`: a summary of the run of a workload.
ghost use Rattle.std.specs.Prelude.{◌≡◌, ◌≤◌, ◌++◌, List, [], Ok, Err, length, reverse, IfOk, IfErr, OnOk};
ghost use Rattle.dispatch_history.specs.Effect.{Effect};
ghost use Rattle.dispatch_history.specs.Plan.{Plan as PlanView};
ghost use Rattle.session_plan.specs.Plan.{PlanData};
ghost use Rattle.device_reader.specs.CookedList.{ReadersStandFor};
ghost use Rattle.schedule.specs.declared.keeping.Lines.TheVariants.{Counted};
ghost use Rattle.schedule.specs.Planned.{IsRun, plan_of};
ghost use Rattle.schedule.specs.State.{HasWith, RanWith, counted};
ghost use Rattle.workload_maker.specs.Making.{left_of};
ghost use Rattle.workload_maker.specs.Session.{session};
ghost use Rattle.command_files.specs.Cooked.{plans_of};
ghost use Rattle.command_files.specs.Planned.{given, script_of};
ghost use Rattle.command_files.specs.Refusing.{RefusesSo};
ghost use Rattle.command_answers.specs.Work.{Works, end_lines, head, summary, work_given};

use crate::plan::plan_run;
use command_files::{Refusal, Subject, readers_of, run_event};
use device_reader::Readers;
use schedule::{Lines, Plan, Schedule, add_all_anrs};
use std::alloc::{AllocError, Global};
use text_pieces::Pieces;
use workload_maker::{Events, make};

/// How many fingers a workload has.
const FINGERS: u8 = 10;

/// How many channels the session of a workload has.
const CHANNELS: u32 = 5;

/// Runs the events of a workload, and returns how many args they gave.
fn run_events(
    alloc: Global,
    events: Events,
    readers: &mut Readers,
    schedule: &mut Schedule,
    plan: &Plan,
) -> Result<u64, AllocError>
    requires { IsRun plan.now }
    ensures ran { (p : PlanData) → plan_of plan.now ≡ script_of p → ReadersStandFor (plans_of p) [] readers.old
        → RanWith Counted (script_of p) [] schedule.old
        → OnOk result (RanWith Counted (script_of p) (given p (reverse (left_of events))) schedule.new) }
    ensures count { (p : PlanData) → plan_of plan.now ≡ script_of p → ReadersStandFor (plans_of p) [] readers.old
        → RanWith Counted (script_of p) [] schedule.old
        → IfOk result (λ n. n ≡ counted (length (given p (reverse (left_of events))))) }
{
    let mut args = Vec::new(alloc);
    let mut count: u64 = 0;
    for event in events {
        run_event(event, &mut args, readers, schedule, plan)?;
        count = count.saturating_add(args.len() as u64);
    }
    Ok(count)
}

/// Appends the `end` lines of the first `count` channels.
fn add_ends(schedule: &Schedule, count: u32, text: &mut Vec<u8>) -> Result<(), AllocError>
    requires { count ≤ 64 }
    ensures { (plan : PlanView) (es : List Effect) → HasWith Counted plan es schedule.now
        → OnOk result (text.new.items ≡ text.old.items ++ end_lines 1 count es) }
{
    for place in 0..count {
        schedule.add_end(place + 1, text)?;
    }
    Ok(())
}

/// The first lines of a summary.
fn head_text(alloc: Global, seed: u32, packets: u32, args: u64) -> Result<Vec<u8>, AllocError>
    ensures { IfOk result (λ text. text.items ≡ head seed packets args) }
{
    let lines = format!(in alloc; "work {seed} {packets}\nargs {args}\n")?;
    Ok(lines.into_bytes())
}

/// The summary of a finished run.
fn summed_up(
    alloc: Global,
    seed: u32,
    packets: u32,
    args: u64,
    schedule: &Schedule,
) -> Result<Vec<u8>, AllocError>
    ensures { (plan : PlanView) (es : List Effect) → HasWith Counted plan es schedule.now
        → IfOk result (λ text. text.items ≡ summary seed packets args es) }
{
    let mut text = head_text(alloc, seed, packets, args)?;
    add_ends(schedule, CHANNELS, &mut text)?;
    add_all_anrs(schedule.anrs(), &mut text)?;
    Ok(text)
}

/// Finishes the run of a workload whose events were run, and sums it up.
fn finished(
    alloc: Global,
    seed: u32,
    packets: u32,
    args: u64,
    plan: &Plan,
    schedule: &mut Schedule,
) -> Result<Pieces, Refusal>
    requires { IsRun plan.now }
    ensures ok { plan_of plan.now ≡ script_of session
        → RanWith Counted (script_of session) (work_given seed packets) schedule.old
        → args ≡ counted (length (work_given seed packets))
        → IfOk result (λ text. Works seed packets (Ok text)) }
    ensures err { plan_of plan.now ≡ script_of session
        → RanWith Counted (script_of session) (work_given seed packets) schedule.old
        → args ≡ counted (length (work_given seed packets))
        → IfErr result (RefusesSo (λ r. Works seed packets (Err r))) }
{
    if schedule.is_too_long() {
        return Err(Refusal::TooLong(Subject::Run));
    }
    schedule.finish(plan)?;
    if schedule.is_too_long() {
        return Err(Refusal::TooLong(Subject::Run));
    }
    Ok(Pieces::of(alloc, summed_up(alloc, seed, packets, args, schedule)?))
}

/// The summary of a workload's run, or the refusal of a run that is too long.
pub fn answer_work(alloc: Global, seed: u32, packets: u32) -> Result<Pieces, Refusal>
    requires { packets ≤ 200000 }
    ensures ok { IfOk result (λ text. Works seed packets (Ok text)) }
    ensures err { IfErr result (RefusesSo (λ r. Works seed packets (Err r))) }
{
    let (session, events) = make(alloc, seed, packets, FINGERS)?;
    let mut readers = readers_of(alloc, &session)?;
    let planned = plan_run(alloc, session)?;
    let mut schedule = Schedule::new(alloc, &planned.plan, Lines::Counted)?;
    let args = run_events(alloc, events, &mut readers, &mut schedule, &planned.plan)?;
    finished(alloc, seed, packets, args, &planned.plan, &mut schedule)
}
