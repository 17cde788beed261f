//! The top calls.
ghost use Rattle.std.specs.Prelude.{◌≡◌, ◌≤◌, ◌↔◌, true, map, string_bytes, None, Ok, Some, IfOk};
ghost use Rattle.command_words.specs.Command.{Recorded as Names, race};
ghost use Rattle.command_words.specs.Forms.{form_of};
ghost use Rattle.command_answers.specs.Program.{IsAlone};
ghost use Rattle.replay_actors.specs.Starts.{EndBy, Left, MayRun, RunsRaces};
ghost use Rattle.replay_engine.specs.Outcome.{Ends, LendsNames, asked, sink_ends};
ghost use Rattle.replay_engine.specs.Raced.{WroteEnd};
ghost use Rattle.command_files.specs.Keeping.{KeepsFiles};

use crate::commands::answer_alone;
use crate::ending::{end_answered, end_words};
use command_answers::answer_race;
use command_words::{Command, command_of};
use outside_io::{Files, Sink};
use replay_actors::{Gate, RaceEnd, Start, run_start};
use std::alloc::{AllocError, Global};
use std::sync::Wait;
use std::thread::Threads;

/// Whether the words are not those of `race`, so that [`run_alone`] runs them.
pub fn is_alone(words: &[String]) -> bool
    ensures alone { result ≡ true → IsAlone (form_of (map string_bytes words.now)) }
    ensures all { IsAlone (form_of (map string_bytes words.now)) → result ≡ true }
{
    !matches!(command_of(words), Some(Command::Race(_)))
}

/// Runs a command that starts no threads, with the contract that [`run`] has for all commands. It never waits.
pub fn run_alone<F: Files, O: Sink, E: Sink>(
    alloc: Global,
    words: &[String],
    files: &mut F,
    out: &mut O,
    err: &mut E,
) -> u8
    requires alone { IsAlone (form_of (map string_bytes words.now)) }
    requires lends { LendsNames (F.entries files.old) (F.lends files.old) (form_of (map string_bytes words.now)) }
    requires free { F.lent files.old ≡ None }
    ensures ends { Ends
        (asked (map string_bytes words.now) (F.entries files.old) (F.readings files.old) (F.readings files.new)
        (F.faults files.old) (F.faults files.new))
        (sink_ends (O.faults out.old) (O.faults out.new) (O.writing out.old) (O.writing out.new))
        (sink_ends (E.faults err.old) (E.faults err.new) (E.writing err.old) (E.writing err.new)) result }
    ensures words { (form_of (map string_bytes words.now) ≡ None) ↔ (result ≡ 2) }
    ensures files { KeepsFiles F.Files files.old files.new }
    ensures sinks_later { (O.faults out.old ≤ O.faults out.new) × (E.faults err.old ≤ E.faults err.new) }
{
    match command_of(words) {
        Some(Command::Alone(command)) => {
            let answer = answer_alone(alloc, files, &command);
            end_answered(answer, out, err)
        }
        Some(Command::Race(_)) => end_words(words, err),
        None => end_words(words, err),
    }
}

/// Runs a command, with threads if it is `race`, whose lanes the gate controls; for all other words this is
/// [`run_alone`], which never waits. `words` are those after the program's name. Returns the status with which the
/// program ends.
///
/// | status | where |
/// |---|---|
/// | 0 | the whole text was written to `out` |
/// | 1 | a line of an order or of a stream file is bad, requests a step that does not exist, or may not come; or streams |
/// |   | cannot be written as a recording, are not whole, or differ from the expected ones |
/// | 2 | the words are not of the form of a command: the line says what is wrong with them |
/// | 3 | the session or a line of the recording is refused |
/// | 4 | a file could not be read |
/// | 5 | a part of the text could not be written |
/// | 6 | out of memory |
/// | 7 | a file, the steps of a session, or a run are longer than their limit |
///
/// For each status except 0 a line on `err` says why, such as `words: UnknownOption --event`, `session: Missing
/// display`, `want: ReadFailed` or `too long: run`.
pub fn run<R: Threads + Wait + Sync, F: Files, O: Sink, E: Sink, G: Gate + Sync>(
    rt: &R,
    alloc: Global,
    words: &[String],
    files: &mut F,
    out: &mut O,
    err: &mut E,
    gate: &G,
) -> u8
    requires lends { LendsNames (F.entries files.old) (F.lends files.old) (form_of (map string_bytes words.now)) }
    requires free { F.lent files.old ≡ None }
    ensures ends { Ends
        (asked (map string_bytes words.now) (F.entries files.old) (F.readings files.old) (F.readings files.new)
        (F.faults files.old) (F.faults files.new))
        (sink_ends (O.faults out.old) (O.faults out.new) (O.writing out.old) (O.writing out.new))
        (sink_ends (E.faults err.old) (E.faults err.new) (E.writing err.old) (E.writing err.new)) result }
    ensures words { (form_of (map string_bytes words.now) ≡ None) ↔ (result ≡ 2) }
    ensures files { KeepsFiles F.Files files.old files.new }
    ensures sinks_later { (O.faults out.old ≤ O.faults out.new) × (E.faults err.old ≤ E.faults err.new) }
{
    if is_alone(words) {
        return run_alone(alloc, words, files, out, err);
    }
    let runner = |start: Start| -> Result<RaceEnd, AllocError>
        requires { MayRun start }
        ensures { IfOk result (Left start) }
    { run_start(rt, alloc, start, gate) };
    run_by(rt, alloc, words, files, out, err, runner)
}

/// Runs a command as [`run`] does, but the caller's function runs the lanes of `race`, once at most. The written order
/// is that of the end which this function returned.
pub fn run_by<
    R: Wait,
    F: Files,
    O: Sink,
    E: Sink,
    K: FnOnce(Start) -> Result<RaceEnd, AllocError> + Drop,
>(rt: &R, alloc: Global, words: &[String], files: &mut F, out: &mut O, err: &mut E, runner: K) -> u8
    requires lends { LendsNames (F.entries files.old) (F.lends files.old) (form_of (map string_bytes words.now)) }
    requires free { F.lent files.old ≡ None }
    requires runs { RunsRaces (K.pre runner) (λ s end. K.post runner s (Ok end)) }
    ensures ends { Ends
        (asked (map string_bytes words.now) (F.entries files.old) (F.readings files.old) (F.readings files.new)
        (F.faults files.old) (F.faults files.new))
        (sink_ends (O.faults out.old) (O.faults out.new) (O.writing out.old) (O.writing out.new))
        (sink_ends (E.faults err.old) (E.faults err.new) (E.writing err.old) (E.writing err.new)) result }
    ensures raced { (files : Names) → form_of (map string_bytes words.now) ≡ Some (race files) → result ≡ 0
        → WroteEnd (EndBy (λ s end. K.post runner s (Ok end))) (O.writing out.old) (O.writing out.new) }
    ensures words { (form_of (map string_bytes words.now) ≡ None) ↔ (result ≡ 2) }
    ensures files { KeepsFiles F.Files files.old files.new }
    ensures sinks_later { (O.faults out.old ≤ O.faults out.new) × (E.faults err.old ≤ E.faults err.new) }
{
    match command_of(words) {
        Some(Command::Race(names)) => {
            let answer = answer_race(rt, alloc, files, names, runner);
            end_answered(answer, out, err)
        }
        Some(Command::Alone(command)) => {
            let answer = answer_alone(alloc, files, &command);
            end_answered(answer, out, err)
        }
        None => end_words(words, err),
    }
}
