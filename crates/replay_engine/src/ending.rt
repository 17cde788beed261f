//! How the program ends: what is written or printed, and the status.
ghost use Rattle.std.specs.Prelude.{codes, ◌≡◌, ◌≢◌, ◌≤◌, ◌++◌, ℕ, List, Ok, map, string_bytes};
ghost use Rattle.text_output.specs.Passing.{Prints, WritesText};
ghost use Rattle.command_words.specs.Fault.{words_line};
ghost use Rattle.command_files.specs.RefusalView.{refusal_view, status_of};
ghost use Rattle.replay_engine.specs.Outcome.{Asked, Ends, sink_ends};
ghost use Rattle.replay_engine.specs.Refusing.{CameTo};

use crate::statuses::{
    tell_fault, tell_order, tell_recording, tell_session, tell_stream, tell_too_long, tell_unread,
};
use command_files::Refusal;
use command_words::fault_of;
use outside_io::Sink;
use text_output::{tell, write_text};
use text_pieces::Pieces;

/// Prints a line, and returns the status that belongs to it.
fn end_with<E: Sink>(status: u8, line: &str, err: &mut E) -> u8
    ensures status { result ≡ status }
    ensures printed { Prints E.Sink err.old err.new line.now }
{
    tell(err, line);
    status
}

/// Prints what is wrong with words that have no valid form, and returns the status.
pub fn end_words<E: Sink>(words: &[String], err: &mut E) -> u8
    ensures status { result ≡ 2 }
    ensures printed { Prints E.Sink err.old err.new (words_line (map string_bytes words.now) ++ codes "\n") }
{
    match fault_of(words) {
        Some(fault) => tell_fault(err, &fault),
        None => tell(err, "\n"),
    }
    2
}

/// The status of a refusal.
fn status_of(refusal: &Refusal) -> u8
    ensures { result ≡ status_of refusal.now }
{
    match refusal {
        Refusal::Session(_) | Refusal::Recording(_) => 3,
        Refusal::Order(_) | Refusal::Stream(_) => 1,
        Refusal::ReadFailed(_) => 4,
        Refusal::NoMemory => 6,
        Refusal::TooLong(_) => 7,
    }
}

/// Prints why a command writes no text, and returns the status. It allocates no memory.
fn end_refused<E: Sink>(refusal: &Refusal, err: &mut E) -> u8
    ensures status { result ≡ status_of refusal.now }
    ensures printed { Prints E.Sink err.old err.new (refusal_view refusal.now).line }
{
    match refusal {
        Refusal::Session(error) => tell_session(err, error),
        Refusal::Recording(error) => tell_recording(err, error),
        Refusal::Order(error) => tell_order(err, *error),
        Refusal::Stream(error) => tell_stream(err, error),
        Refusal::ReadFailed(file) => tell_unread(err, *file),
        Refusal::NoMemory => tell(err, "no memory\n"),
        Refusal::TooLong(what) => tell_too_long(err, *what),
    }
    status_of(refusal)
}

/// Ends a program that has no memory for its words.
pub fn no_memory<E: Sink>(err: &mut E) -> u8
    ensures status { result ≡ 6 }
    ensures printed { Prints E.Sink err.old err.new (codes "no memory\n") }
{
    end_with(6, "no memory\n", err)
}

/// Writes the text of an answer, or prints why there is none, and returns the status.
pub fn end_answered<O: Sink, E: Sink>(
    answer: Result<Pieces, Refusal>,
    out: &mut O,
    err: &mut E,
) -> u8
    ensures ends { (q : Asked) → CameTo q answer → Ends q
        (sink_ends (O.faults out.old) (O.faults out.new) (O.writing out.old) (O.writing out.new))
        (sink_ends (E.faults err.old) (E.faults err.new) (E.writing err.old) (E.writing err.new)) result }
    ensures whole { result ≡ 0
        → (text : List ℕ) × (answer ≡ Ok text) × WritesText (O.writing out.old) (O.writing out.new) text }
    ensures no_usage { result ≢ 2 }
    ensures later { (O.faults out.old ≤ O.faults out.new) × (E.faults err.old ≤ E.faults err.new) }
{
    match answer {
        Ok(text) => match write_text(out, &text) {
            Ok(()) => 0,
            Err(_) => end_with(5, "write failed\n", err),
        },
        Err(refusal) => end_refused(&refusal, err),
    }
}
