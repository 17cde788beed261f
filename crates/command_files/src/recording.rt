//! A recording that is read piece by piece, and the run of what it gives.
ghost use Rattle.std.specs.Prelude.{◌≡◌, ℕ, ◌+◌, false, List, ◌∷◌, ◌++◌, length, map, reverse, OnOk, IfOk, IfErr};
ghost use Rattle.raw_events.specs.declared.event.RawEvent.{RawEvent as Event};
ghost use Rattle.dispatch_history.specs.Plan.{Cooked};
ghost use Rattle.session_plan.specs.Plan.{PlanData};
ghost use Rattle.device_reader.specs.CookedList.{ReadersStandFor};
ghost use Rattle.schedule.specs.declared.keeping.Lines.{Lines};
ghost use Rattle.schedule.specs.Planned.{IsRun, plan_of};
ghost use Rattle.schedule.specs.State.{RanWith};
ghost use Rattle.command_files.specs.Cooked.{plans_of};
ghost use Rattle.command_files.specs.Planned.{given, script_of};
ghost use Rattle.command_files.specs.Recorded.{HasRead, HasEnded, RefusesEvents, Feeds, is_memory, refusal_of};

use crate::refusal::Refusal;
use crate::taker::Taker;
use device_reader::Readers;
use input_types::{Args, Moment};
use raw_events::{LineError, LineReader, RawEvent};
use schedule::{Plan, Schedule};
use std::alloc::{AllocError, Global};
use std::marker::Model;

/// A recording that is being read, and the run of what it gave so far. After a refused line nothing more is run. It
/// keeps no list of events.
#[derive(Drop)]
pub struct Recording {
    reader: LineReader,
    readers: Readers,
    schedule: Schedule,
    /// The events of a piece.
    events: Vec<RawEvent>,
    /// The args of an event.
    args: Vec<Args>,
}

impl Model for Recording {
    ghost use Rattle.command_files.specs.Recorded.{RecordingState};

    ghost Value = { RecordingState };

    ghost view = { λ r. record { reader = r.reader; readers = r.readers; schedule = r.schedule } };
}

/// A refused line does not change what is run or counted. Running out of memory is reported.
pub(crate) fn passed_over(error: LineError) -> Result<(), AllocError>
    ensures { OnOk result (is_memory error ≡ false) }
{
    match error {
        LineError::Memory => Err(AllocError),
        LineError::BadLine { .. } | LineError::NoMoment { .. } | LineError::TooLong { .. } => Ok(
            (),
        ),
    }
}

/// Why a recording is refused.
pub fn recording_refusal(error: LineError) -> Refusal
    ensures { result ≡ refusal_of error }
{
    match error {
        LineError::Memory => Refusal::NoMemory,
        LineError::BadLine { .. } | LineError::NoMoment { .. } | LineError::TooLong { .. } => {
            Refusal::Recording(error)
        }
    }
}

/// Hands some args to a run, at their time.
#[inline(always)]
fn run_args(
    schedule: &mut Schedule,
    plan: &Plan,
    moment: Moment,
    args: &[Args],
) -> Result<(), AllocError>
    requires { IsRun plan.now }
    ensures { (how : Lines) (before : List Cooked) → RanWith how (plan_of plan.now) before schedule.old → OnOk result
        (RanWith how (plan_of plan.now) (before ++ map (λ a. record { moment = moment; args = a }) args.now)
        schedule.new) }
{
    for a in args {
        schedule.take(plan, moment, a)?;
    }
    Ok(())
}

/// What the devices give for an event, and its time.
#[inline(always)]
pub fn cook_event(
    event: RawEvent,
    args: &mut Vec<Args>,
    readers: &mut Readers,
) -> Result<Moment, AllocError>
    ensures given { (p : PlanData) (past : List Event) → ReadersStandFor (plans_of p) past readers.old
        → IfOk result (λ m. given p (event ∷ past) ≡ given p past ++ map
        (λ a. record { moment = m; args = a }) args.new.items) }
    ensures after { (p : PlanData) (past : List Event) → ReadersStandFor (plans_of p) past readers.old
        → OnOk result (ReadersStandFor (plans_of p) (event ∷ past) readers.new) }
{
    args.clear();
    let moment = readers.take(event, args)?;
    Ok(moment)
}

/// Hands to a run what the devices give for an event.
#[inline(always)]
pub fn run_event(
    event: RawEvent,
    args: &mut Vec<Args>,
    readers: &mut Readers,
    schedule: &mut Schedule,
    plan: &Plan,
) -> Result<(), AllocError>
    requires { IsRun plan.now }
    ensures ran { (how : Lines) (p : PlanData) (past : List Event) → plan_of plan.now ≡ script_of p
        → ReadersStandFor (plans_of p) past readers.old
        → RanWith how (script_of p) (given p past) schedule.old → OnOk result
        (ReadersStandFor (plans_of p) (event ∷ past) readers.new
        × RanWith how (script_of p) (given p (event ∷ past)) schedule.new) }
    ensures count { (p : PlanData) (past : List Event) → ReadersStandFor (plans_of p) past readers.old
        → OnOk result (length (given p (event ∷ past)) ≡ length (given p past) + length args.new.items) }
{
    let moment = cook_event(event, args, readers)?;
    run_args(schedule, plan, moment, args)
}

/// Hands to a run what the devices give for some events.
fn run_events(
    events: &[RawEvent],
    args: &mut Vec<Args>,
    readers: &mut Readers,
    schedule: &mut Schedule,
    plan: &Plan,
) -> Result<(), AllocError>
    requires { IsRun plan.now }
    ensures { (how : Lines) (p : PlanData) (past : List Event) → plan_of plan.now ≡ script_of p
        → ReadersStandFor (plans_of p) past readers.old
        → RanWith how (script_of p) (given p past) schedule.old → OnOk result
        (ReadersStandFor (plans_of p) (reverse events.now ++ past) readers.new
        × RanWith how (script_of p) (given p (reverse events.now ++ past)) schedule.new) }
{
    for event in events {
        run_event(*event, args, readers, schedule, plan)?;
    }
    Ok(())
}

impl Recording {
    /// A recording before its first byte, over a run before its first args.
    pub fn new(alloc: Global, reader: LineReader, readers: Readers, schedule: Schedule) -> Recording
        ensures { result ≡ record { reader = reader; readers = readers; schedule = schedule } }
    {
        Recording {
            reader,
            readers,
            schedule,
            events: Vec::new(alloc),
            args: Vec::new(alloc),
        }
    }

    /// Ends the recording and the run. Returns the run, or the refusal of a line.
    pub fn end(self, plan: &Plan) -> Result<Schedule, Refusal>
        requires { IsRun plan.now }
        ensures ok { (how : Lines) (p : PlanData) (bytes : List ℕ) → plan_of plan.now ≡ script_of p
            → HasRead how p bytes self → IfOk result (HasEnded how p bytes) }
        ensures err { (how : Lines) (p : PlanData) (bytes : List ℕ) → HasRead how p bytes self
            → IfErr result (RefusesEvents p bytes) }
    {
        let mut recording = self;
        recording.events.clear();
        match recording.reader.finish(&mut recording.events) {
            Ok(()) => {
                run_events(
                    &recording.events,
                    &mut recording.args,
                    &mut recording.readers,
                    &mut recording.schedule,
                    plan,
                )?;
                recording.schedule.finish(plan)?;
                Ok(recording.schedule)
            }
            Err(error) => Err(recording_refusal(error)),
        }
    }
}

impl Taker for Recording {
    ghost use Rattle.command_files.specs.Taking.{more_behind, none_behind};

    type Beside = Plan;

    ghost fits = { IsRun };

    ghost takes = { Feeds };

    fn take(&mut self, plan: &Plan, piece: &[u8]) -> Result<(), AllocError> {
        self.events.clear();
        match self.reader.feed(piece, &mut self.events) {
            Ok(()) => run_events(
                &self.events,
                &mut self.args,
                &mut self.readers,
                &mut self.schedule,
                plan,
            ),
            Err(error) => passed_over(error),
        }
    }

    ghost none = { λ _ s how p bytes _. none_behind (HasRead how p) s bytes };

    ghost more = { λ _ s t u front behind f g how p bytes is.
        more_behind (HasRead how p) s t u front behind (λ xs. f how p xs is) (λ xs. g how p xs is) bytes };
}
