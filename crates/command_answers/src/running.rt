//! The run of a session and of a recording that is read in pieces, as `replay` and `why` answer it.
ghost use Rattle.std.specs.Prelude.{◌≡◌, ℕ, ◌≤◌, List, [], ◌∷◌, ⊤, map, length, Ok, Err, IfOk, IfErr};
ghost use Rattle.command_words.specs.CommandView.{recorded_view};
ghost use Rattle.dispatch_history.specs.Effect.{Effect, past_of};
ghost use Rattle.dispatch_history.specs.History.{opened};
ghost use Rattle.dispatch_history.specs.Plan.{Plan as PlanView};
ghost use Rattle.raw_events.specs.Recording.{recorded};
ghost use Rattle.raw_events.specs.declared.event.RawEvent.{RawEvent as Event};
ghost use Rattle.session_plan.specs.Plan.{PlanData};
ghost use Rattle.session_plan.specs.Valid.{IsPlan};
ghost use Rattle.session_plan.specs.View.{channel_view, plan_view};
ghost use Rattle.schedule.specs.Planned.{IsRun, plan_of};
ghost use Rattle.schedule.specs.State.{CompletedWith, HasWith};
ghost use Rattle.command_files.specs.Devices.{devices_of};
ghost use Rattle.command_files.specs.Inputs.{lines_judged, recording_limit};
ghost use Rattle.command_files.specs.Judged.{Behind, by_log};
ghost use Rattle.command_files.specs.Keeping.{CanRead, CanReadBoth, KeepsFiles};
ghost use Rattle.command_files.specs.Logged.{Logged, RefusesBy};
ghost use Rattle.command_files.specs.Planned.{given, script_of};
ghost use Rattle.command_files.specs.Recorded.{HasRead};
ghost use Rattle.command_files.specs.Refusing.{RefusesSo};
ghost use Rattle.command_answers.specs.Begun.{BeginsWith};
ghost use Rattle.command_answers.specs.Running.{Comes, RecordingSends, RunSends, SaysOf, StopsOf, lines_of, text_by};

use crate::plan::plan_run;
use crate::texts::text_of;
use command_files::{
    Input, RECORDING_LIMIT, Recording, Refusal, Subject, feed_file, numbered_devices, read_refusal,
    read_session, readers_of,
};
use command_words::Recorded;
use outside_io::Files;
use raw_events::LineReader;
use schedule::{Lines, Plan, Schedule};
use session_plan::{ChannelPlan, Plan as Session};
use std::alloc::{AllocError, Global};
use text_pieces::Pieces;

/// Which text a run writes.
#[derive(Clone, Copy)]
pub(crate) enum Sending {
    /// What each window is sent.
    Streams,
    /// The result of each call, and why.
    Causes,
}

impl Sending {
    /// The lines that a run keeps for this text.
    fn lines(self) -> Lines
        ensures { result ≡ lines_of self }
    {
        match self {
            Sending::Streams => Lines::Kept,
            Sending::Causes => Lines::Causes,
        }
    }
}

/// A run that has begun.
#[derive(Drop)]
struct Begun {
    channels: Vec<ChannelPlan>,
    plan: Plan,
    recording: Recording,
}

/// Begins the run of a session, with these lines.
fn begin(alloc: Global, session: Session, lines: Lines) -> Result<Begun, AllocError>
    requires { IsPlan session }
    ensures { IfOk result (BeginsWith lines (plan_view session)) }
{
    let reader = LineReader::new(numbered_devices(alloc, &session)?)?;
    let readers = readers_of(alloc, &session)?;
    let planned = plan_run(alloc, session)?;
    let schedule = Schedule::new(alloc, &planned.plan, lines)?;
    Ok(Begun {
        channels: planned.channels,
        plan: planned.plan,
        recording: Recording::new(alloc, reader, readers, schedule),
    })
}

/// The text of a run, taken out of it.
fn sent_text(
    alloc: Global,
    channels: &[ChannelPlan],
    schedule: &mut Schedule,
    sending: Sending,
) -> Result<Pieces, AllocError>
    requires { length channels.now ≤ 64 }
    ensures { (plan : PlanView) (es : List Effect) → HasWith (lines_of sending) plan es schedule.old
        → opened (past_of es) ≡ length plan.channels → length channels.now ≡ length plan.channels
        → IfOk result
        (λ text. text ≡ text_by sending plan.displays (map (λ c. c.name) (map channel_view channels.now)) es) }
{
    match sending {
        Sending::Streams => text_of(alloc, channels, schedule),
        Sending::Causes => Ok(Pieces::of(alloc, schedule.take_causes(alloc))),
    }
}

/// The text of a finished run, unless the run became too long.
fn done_text(
    alloc: Global,
    channels: &[ChannelPlan],
    schedule: &mut Schedule,
    sending: Sending,
) -> Result<Pieces, Refusal>
    requires { length channels.now ≤ 64 }
    ensures ok { (p : PlanData) (past : List Event) → map channel_view channels.now ≡ p.channels
        → CompletedWith (lines_of sending) (script_of p) (given p past) schedule.old
        → IfOk result (λ text. Comes sending p past (Ok text)) }
    ensures err { (p : PlanData) (past : List Event) → map channel_view channels.now ≡ p.channels
        → CompletedWith (lines_of sending) (script_of p) (given p past) schedule.old
        → IfErr result (RefusesSo (λ r. Comes sending p past (Err r))) }
{
    if schedule.is_too_long() {
        return Err(Refusal::TooLong(Subject::Run));
    }
    Ok(sent_text(alloc, channels, schedule, sending)?)
}

/// Ends the recording, and makes the text.
fn ended_text(alloc: Global, begun: Begun, sending: Sending) -> Result<Pieces, Refusal>
    requires run { IsRun begun.plan }
    requires few { length begun.channels.items ≤ 64 }
    ensures ok { (p : PlanData) (bytes : List ℕ) → map channel_view begun.channels.items ≡ p.channels
        → plan_of begun.plan ≡ script_of p
        → HasRead (lines_of sending) p bytes begun.recording
        → IfOk result (λ text. Behind (RunSends sending p) (lines_judged (recorded (devices_of p) bytes)) (Ok text)) }
    ensures err { (p : PlanData) (bytes : List ℕ) → map channel_view begun.channels.items ≡ p.channels
        → plan_of begun.plan ≡ script_of p
        → HasRead (lines_of sending) p bytes begun.recording
        → IfErr result (RefusesSo
        (λ r. Behind (RunSends sending p) (lines_judged (recorded (devices_of p) bytes)) (Err r))) }
{
    let Begun {
        channels,
        plan,
        recording,
    } = begun;
    match recording.end(&plan) {
        Ok(schedule) => {
            let mut schedule = schedule;
            done_text(alloc, &channels, &mut schedule, sending)
        }
        Err(refusal) => Err(refusal),
    }
}

/// Reads the recording, runs what it gives, and makes the text.
fn recording_text<F: Files>(
    alloc: Global,
    files: &mut F,
    begun: Begun,
    name: &str,
    sending: Sending,
) -> Result<Pieces, Refusal>
    requires files { CanRead F.Files files.old name.now }
    requires run { IsRun begun.plan }
    requires few { length begun.channels.items ≤ 64 }
    ensures ok { (p : PlanData) → BeginsWith (lines_of sending) p begun → IfOk result
        (λ text. Logged (F.entries files.old) (F.readings files.old) (F.readings files.new)
        ((name.now, recording_limit) ∷ []) (λ rs. RecordingSends sending name.now (by_log rs) p (Ok text))) }
    ensures err { (p : PlanData) → BeginsWith (lines_of sending) p begun → IfErr result
        (RefusesBy (λ x. Logged (F.entries files.old) (F.readings files.old) (F.readings files.new)
        ((name.now, recording_limit) ∷ []) (λ rs. RecordingSends sending name.now (by_log rs) p (Err x)))
        (Logged (F.entries files.old) (F.readings files.old) (F.readings files.new)
        ((name.now, recording_limit) ∷ []) (λ rs. ⊤)) (F.faults files.old) (F.faults files.new)) }
    ensures files { KeepsFiles F.Files files.old files.new }
{
    let mut begun = begun;
    let fed = feed_file(
        alloc,
        files,
        name,
        RECORDING_LIMIT,
        &begun.plan,
        &mut begun.recording,
    );
    match fed {
        Ok(()) => ended_text(alloc, begun, sending),
        Err(error) => Err(read_refusal(error, Input::Recording)),
    }
}

/// Reads and judges both files of a run, and makes the text.
pub(crate) fn answer_run<F: Files>(
    alloc: Global,
    files: &mut F,
    names: Recorded<'_>,
    sending: Sending,
) -> Result<Pieces, Refusal>
    requires files { CanReadBoth F.Files files.old names.session.now names.events.now }
    ensures ok { IfOk result (λ text. SaysOf sending (F.entries files.old) (F.readings files.old)
        (F.readings files.new) (recorded_view names.entry) (Ok text)) }
    ensures err { IfErr result (StopsOf sending (F.entries files.old) (F.readings files.old) (F.readings files.new)
        (recorded_view names.entry) (F.faults files.old) (F.faults files.new)) }
    ensures files { KeepsFiles F.Files files.old files.new }
{
    let plan = read_session(alloc, files, names.session)?;
    let begun = begin(alloc, plan, sending.lines())?;
    recording_text(alloc, files, begun, names.events, sending)
}
