//! The messages of one section.
ghost use Rattle.std.specs.Prelude.{◌≡◌, ℕ, ◌+◌, ◌≤◌, IfOk, IfErr, option_map};
ghost use Rattle.stream_text.specs.StreamAnswer.{pending};
ghost use Rattle.stream_judge.specs.Judged.{Numbers};
ghost use Rattle.batch_text.specs.Sections.{IsBad, IsBehind, ReadsSection, RefusesSection, message_at};

use crate::batches::Batches;
use input_types::Message;
use std::alloc::Global;
use stream_judge::{FileError, Judge, refusal};
use stream_text::{StreamLine, StreamLines};

/// The next line, if one is left.
#[tactic(auto, using(crate::proofs::Reading::line_behind))]
pub(crate) fn next_line(lines: &mut StreamLines<'_>) -> Result<Option<(u64, StreamLine)>, FileError>
    ensures ok { IfOk result (IsBehind lines.old.events lines.new.events) }
    ensures left { IfOk result (λ line. lines.new.left + pending line ≤ lines.old.left) }
    ensures err { IfErr result (IsBad lines.old.events) }
{
    match lines.next() {
        Ok(line) => Ok(line),
        Err(line) => Err(FileError::BadLine { line }),
    }
}

/// The message that a line is, with its number.
fn message_at(line: &Option<(u64, StreamLine)>) -> Option<(u64, &Message)>
    ensures { option_map (λ m. (m.0, m.1.now)) result ≡ message_at line.now }
{
    match line {
        Some((number, StreamLine::Message(message))) => Some((*number, message)),
        _ => None,
    }
}

/// Reads the messages of a section, writes its items, and returns the line after them.
pub(crate) fn section(
    alloc: Global,
    lines: &mut StreamLines<'_>,
    frame: u64,
    text: &mut Vec<u8>,
) -> Result<Option<(u64, StreamLine)>, FileError>
    requires { 1 ≤ frame }
    ensures ok { IfOk result (ReadsSection frame lines.old.events lines.new.events text.old.items text.new.items) }
    ensures left { IfOk result (λ line. lines.new.left + pending line ≤ lines.old.left) }
    ensures err { (first : ℕ) → Numbers first lines.old.events → IfErr result (RefusesSection first lines.old.events) }
{
    let mut judge = Judge::new(alloc);
    let mut batches = Batches::new(alloc);
    'messages: loop {
        let line = next_line(lines)?;
        let Some((number, message)) = message_at(&line) else {
            batches.end(text)?;
            return Ok(line);
        };
        if !judge.take(message)? {
            return Err(refusal(number, lines));
        }
        batches.take(frame, message, text)?;
    }
}
