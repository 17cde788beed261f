//! `inspect`: what a session and a recording contain; the recording is read in pieces.
ghost use Rattle.std.specs.Prelude.{ℕ, List, [], ◌∷◌, ⊤, Ok, Err, IfOk, IfErr};
ghost use Rattle.command_words.specs.Command.{inspect};
ghost use Rattle.command_words.specs.CommandView.{recorded_view};
ghost use Rattle.recording_counts.specs.RecordingTally.{IsCounted};
ghost use Rattle.session_plan.specs.Valid.{IsPlan};
ghost use Rattle.session_plan.specs.View.{plan_view};
ghost use Rattle.command_files.specs.Cooked.{plans_of};
ghost use Rattle.command_files.specs.Counting.{HasTaken};
ghost use Rattle.command_files.specs.Devices.{devices_of};
ghost use Rattle.command_files.specs.Inputs.{lined_file, recording_limit};
ghost use Rattle.command_files.specs.Judged.{Behind, by_log};
ghost use Rattle.command_files.specs.Keeping.{CanRead, CanReadBoth, KeepsFiles};
ghost use Rattle.command_files.specs.Logged.{Logged, RefusesBy};
ghost use Rattle.command_files.specs.Refusing.{RefusesSo};
ghost use Rattle.command_answers.specs.Inspect.{CountsAnswer, InspectAnswers, session_view};
ghost use Rattle.command_answers.specs.Program.{Answers, RefusesCommand};

use command_files::{
    Counting, Input, KeyedPlan, RECORDING_LIMIT, Refusal, feed_file, read_keyed_session,
    read_refusal,
};
use command_words::Recorded;
use inspect_text::inspect_text;
use outside_io::Files;
use recording_counts::RecordingTally;
use std::alloc::{AllocError, Global};
use text_pieces::Pieces;

/// The text about a session and the counts of its recording.
fn told(alloc: Global, session: &KeyedPlan, tally: &RecordingTally) -> Result<Pieces, AllocError>
    ensures { (bytes : List ℕ)
        → IsCounted (devices_of (plan_view session.now.plan)) (plans_of (plan_view session.now.plan)) bytes tally.now
        → IfOk result (λ text. Behind (InspectAnswers (session_view session.now))
        ((lined_file (devices_of (plan_view session.now.plan))).rule bytes) (Ok text)) }
{
    let mut text = Vec::new(alloc);
    inspect_text(
        &mut text,
        tally.lines(),
        tally.events(),
        &session.plan.steps,
        &session.unread,
    )?;
    Ok(Pieces::of(alloc, text))
}

/// Ends the recording, and makes the text.
fn ended_text(alloc: Global, session: &KeyedPlan, counting: Counting) -> Result<Pieces, Refusal>
    ensures ok { (bytes : List ℕ) → HasTaken (plan_view session.now.plan) bytes counting
        → IfOk result (λ text. Behind (InspectAnswers (session_view session.now))
        ((lined_file (devices_of (plan_view session.now.plan))).rule bytes) (Ok text)) }
    ensures err { (bytes : List ℕ) → HasTaken (plan_view session.now.plan) bytes counting
        → IfErr result (RefusesSo (λ r. Behind (InspectAnswers (session_view session.now))
        ((lined_file (devices_of (plan_view session.now.plan))).rule bytes) (Err r))) }
{
    let tally = counting.end()?;
    Ok(told(alloc, session, &tally)?)
}

/// Reads the recording, counts what it contains, and makes the text.
fn counted_text<F: Files>(
    alloc: Global,
    files: &mut F,
    session: &KeyedPlan,
    name: &str,
) -> Result<Pieces, Refusal>
    requires files { CanRead F.Files files.old name.now }
    requires valid { IsPlan session.now.plan }
    ensures ok { IfOk result
        (λ text. Logged (F.entries files.old) (F.readings files.old) (F.readings files.new)
        ((name.now, recording_limit) ∷ [])
        (λ rs. CountsAnswer name.now (by_log rs) (session_view session.now) (Ok text))) }
    ensures err { IfErr result
        (RefusesBy (λ x. Logged (F.entries files.old) (F.readings files.old) (F.readings files.new)
        ((name.now, recording_limit) ∷ [])
        (λ rs. CountsAnswer name.now (by_log rs) (session_view session.now) (Err x)))
        (Logged (F.entries files.old) (F.readings files.old) (F.readings files.new)
        ((name.now, recording_limit) ∷ []) (λ rs. ⊤)) (F.faults files.old) (F.faults files.new)) }
    ensures files { KeepsFiles F.Files files.old files.new }
{
    let mut counting = Counting::new(alloc, &session.plan)?;
    match feed_file(alloc, files, name, RECORDING_LIMIT, &(), &mut counting) {
        Ok(()) => ended_text(alloc, session, counting),
        Err(error) => Err(read_refusal(error, Input::Recording)),
    }
}

/// Reads and judges both files of `inspect`, and makes the text.
pub fn answer_inspect<F: Files>(
    alloc: Global,
    files: &mut F,
    names: Recorded<'_>,
) -> Result<Pieces, Refusal>
    requires files { CanReadBoth F.Files files.old names.session.now names.events.now }
    ensures ok { IfOk result (λ text. Answers (F.entries files.old) (F.readings files.old) (F.readings files.new)
        (inspect (recorded_view names.entry)) (Ok text)) }
    ensures err { IfErr result (RefusesCommand (F.entries files.old) (F.readings files.old) (F.readings files.new)
        (inspect (recorded_view names.entry)) (F.faults files.old) (F.faults files.new)) }
    ensures files { KeepsFiles F.Files files.old files.new }
{
    let session = read_keyed_session(alloc, files, names.session)?;
    counted_text(alloc, files, &session, names.events)
}
