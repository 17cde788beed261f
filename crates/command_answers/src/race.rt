//! `race`: the run of a session by threads, in the order that they take.
ghost use Rattle.std.specs.Prelude.{◌≡◌, ◌+◌, ◌≤◌, ℕ, List, Option, Ok, Err, length, map, IfOk, IfErr};
ghost use Rattle.key_repeat.specs.declared.delays.Repeats.{Repeats as RepeatsView};
ghost use Rattle.command_words.specs.Command.{race};
ghost use Rattle.command_words.specs.CommandView.{recorded_view};
ghost use Rattle.raw_events.specs.declared.event.RawEvent.{RawEvent as Event};
ghost use Rattle.window_snapshot.specs.Mask.{mask_has};
ghost use Rattle.given_run.specs.Planned.{cooked_of};
ghost use Rattle.replay_actors.specs.Starts.{EndBy, RunsRaces};
ghost use Rattle.session_plan.specs.Valid.{IsPlan};
ghost use Rattle.session_plan.specs.View.{channel_view, plan_view};
ghost use Rattle.replay_actors.specs.Session.{channel_of, step_of};
ghost use Rattle.command_files.specs.Keeping.{CanReadBoth, KeepsFiles};
ghost use Rattle.command_files.specs.Planned.{given};
ghost use Rattle.command_answers.specs.Program.{Answers, RefusesCommand};
ghost use Rattle.command_answers.specs.Race.{RaceAnswers, Races, finishes_from};
ghost use Rattle.command_answers.specs.RaceEnds.{DoPlan, EndsRace, PrintsEnd, raced_plan};
ghost use Rattle.command_files.specs.Refusing.{RefusesSo};

use crate::given::{GIVEN_LIMIT, cook_events};
use command_files::{Refusal, Subject, numbered_devices, read_events, read_session, readers_of};
use command_words::Recorded;
use dispatch_core::Core;
use given_run::Cooked;
use input_service::Service;
use input_types::{Args, Displays, Moment};
use key_repeat::Repeats;
use outside_io::Files;
use raw_events::RawEvent;
use replay_actors::{Lanes, RaceEnd, Start, open_channels, race_text, scripts_of};
use session_plan::{ChannelPlan, Plan as Session, Step};
use std::alloc::{AllocError, Global};
use std::sync::Wait;
use text_pieces::Pieces;
use window_snapshot::mask_with;

/// The mask of the channels whose owners finish what they receive. The first channel of the list has this number.
fn finishing(number: u32, channels: &[ChannelPlan]) -> u64
    requires { (1 ≤ number) × (number + length channels.now ≤ 65) }
    ensures { (repeats : Option RepeatsView) (c : ℕ)
        → mask_has result c ≡ finishes_from number (map (channel_of repeats) (map channel_view channels.now)) c }
{
    match channels {
        [first, rest @ ..] => {
            let mask = finishing(number + 1, rest);
            if first.finishes {
                mask_with(mask, number)
            } else {
                mask
            }
        }
        [] => 0,
    }
}

/// The args with their times, as pairs.
fn pairs(alloc: Global, all: Vec<Cooked>) -> Result<Vec<(Moment, Args)>, AllocError>
    ensures { IfOk result (λ v. v.items ≡ map (λ a. (a.moment, a.args)) all.items) }
{
    let mut given = Vec::new(alloc);
    for cooked in all {
        given.push((cooked.moment, cooked.args))?;
    }
    Ok(given)
}

/// What the threads of a race must do.
fn lanes_of(
    alloc: Global,
    channels: &[ChannelPlan],
    steps: Vec<Step>,
    all: Vec<Cooked>,
) -> Result<Lanes, AllocError>
    requires { length channels.now ≤ 64 }
    ensures { (repeats : Option RepeatsView) → IfOk result
        (DoPlan (map (channel_of repeats) (map channel_view channels.now)) (map step_of steps.items)
        (map cooked_of all.items)) }
{
    let finishing = finishing(1, channels);
    Ok(Lanes {
        cooked: pairs(alloc, all)?,
        scripts: scripts_of(alloc, steps)?,
        channels: channels.len() as u32,
        finishing,
    })
}

/// Runs the lanes of a race over a core of its own.
fn raced<R: Wait, K: FnOnce(Start) -> Result<RaceEnd, AllocError> + Drop>(
    rt: &R,
    alloc: Global,
    displays: &Displays,
    channels: &[ChannelPlan],
    repeats: Option<Repeats>,
    steps: Vec<Step>,
    all: Vec<Cooked>,
    runner: K,
) -> Result<RaceEnd, AllocError>
    requires few { length channels.now ≤ 64 }
    requires runs { RunsRaces (K.pre runner) (λ s end. K.post runner s (Ok end)) }
    ensures left { IfOk result (EndBy (λ s end. K.post runner s (Ok end))) }
    ensures seats { IfOk result (λ end. length end.script_seats.items ≡ 8) }
    ensures race { (until : ℕ)
        → IfOk result (EndsRace (raced_plan displays.now repeats channels.now steps.items all.items until)) }
{
    let core = Core::new(alloc, displays)?;
    let (service, mut seat) = Service::new(alloc, core)?;
    open_channels(rt, &service, &mut seat, channels, repeats)?;
    let lanes = lanes_of(alloc, channels, steps, all)?;
    runner(Start {
        service,
        seat,
        lanes,
    })
}

/// Runs a race, and makes the text of its order and its result.
fn race_run<R: Wait, K: FnOnce(Start) -> Result<RaceEnd, AllocError> + Drop>(
    rt: &R,
    alloc: Global,
    session: Session,
    all: Vec<Cooked>,
    runner: K,
) -> Result<Pieces, Refusal>
    requires plan { IsPlan session }
    requires runs { RunsRaces (K.pre runner) (λ s end. K.post runner s (Ok end)) }
    ensures left { IfOk result (PrintsEnd (EndBy (λ s end. K.post runner s (Ok end)))) }
    ensures ok { (past : List Event) → map cooked_of all.items ≡ given (plan_view session) past
        → IfOk result (λ text. Races (plan_view session) past (Ok text)) }
    ensures err { (past : List Event) → map cooked_of all.items ≡ given (plan_view session) past
        → IfErr result (RefusesSo (λ r. Races (plan_view session) past (Err r))) }
{
    if all.len() > GIVEN_LIMIT {
        return Err(Refusal::TooLong(Subject::Run));
    }
    let displays = session.device_displays();
    let Session {
        channels,
        steps,
        repeats,
        ..
    } = session;
    let end = raced(rt, alloc, &displays, &channels, repeats, steps, all, runner)?;
    let mut text = Vec::new(alloc);
    race_text(&channels, &end, &mut text)?;
    Ok(Pieces::of(alloc, text))
}

/// The text of a race of a session and the events of a recording, or why there is none.
fn race_of<R: Wait, K: FnOnce(Start) -> Result<RaceEnd, AllocError> + Drop>(
    rt: &R,
    alloc: Global,
    session: Session,
    events: &[RawEvent],
    runner: K,
) -> Result<Pieces, Refusal>
    requires plan { IsPlan session }
    requires runs { RunsRaces (K.pre runner) (λ s end. K.post runner s (Ok end)) }
    ensures left { IfOk result (PrintsEnd (EndBy (λ s end. K.post runner s (Ok end)))) }
    ensures ok { IfOk result (λ text. RaceAnswers (plan_view session) events.now (Ok text)) }
    ensures err { IfErr result (RefusesSo (λ r. RaceAnswers (plan_view session) events.now (Err r))) }
{
    let mut readers = readers_of(alloc, &session)?;
    let all = cook_events(alloc, events, &mut readers)?;
    race_run(rt, alloc, session, all, runner)
}

/// Reads and judges both files of `race`, has its lanes run, and makes the text of what they left behind.
pub fn answer_race<R: Wait, F: Files, K: FnOnce(Start) -> Result<RaceEnd, AllocError> + Drop>(
    rt: &R,
    alloc: Global,
    files: &mut F,
    names: Recorded<'_>,
    runner: K,
) -> Result<Pieces, Refusal>
    requires files { CanReadBoth F.Files files.old names.session.now names.events.now }
    requires runs { RunsRaces (K.pre runner) (λ s end. K.post runner s (Ok end)) }
    ensures ok { IfOk result (λ text. Answers (F.entries files.old) (F.readings files.old) (F.readings files.new)
        (race (recorded_view names.entry)) (Ok text)) }
    ensures left { IfOk result (PrintsEnd (EndBy (λ s end. K.post runner s (Ok end)))) }
    ensures err { IfErr result (RefusesCommand (F.entries files.old) (F.readings files.old) (F.readings files.new)
        (race (recorded_view names.entry)) (F.faults files.old) (F.faults files.new)) }
    ensures files { KeepsFiles F.Files files.old files.new }
{
    let session = read_session(alloc, files, names.session)?;
    let devices = numbered_devices(alloc, &session)?;
    let events = read_events(alloc, files, &devices, names.events)?;
    race_of(rt, alloc, session, &events, runner)
}
