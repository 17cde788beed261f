//! The lines of a stream file, judged one by one.
ghost use Rattle.std.specs.Prelude.{◌≡◌, ◌+◌, ◌≤◌, IfOk, Some, None, length, if◌then◌else◌};
ghost use Rattle.gesture_verifier.specs.Told.{state_of};
ghost use Rattle.emit_text.specs.JudgedLines.{Judges, after_line, file_lines};

use gesture_verifier::{StepError, Verifier};
use std::alloc::{AllocError, Global};
use std::marker::Model;
use stream_judge::{FileError, refusal};
use stream_text::{StreamLine, StreamLines};

/// Judges a line after those of its section; false if its message is not allowed there.
fn judge(alloc: Global, verifier: &mut Verifier, says: &StreamLine) -> Result<bool, AllocError>
    ensures { IfOk result (λ may. after_line (state_of verifier.old) says.now
        ≡ (if may then Some (state_of verifier.new) else None)) }
{
    match says {
        StreamLine::Channel { .. } => {
            *verifier = Verifier::new(alloc);
            Ok(true)
        }
        StreamLine::Message(message) => match verifier.step(message) {
            Ok(()) => Ok(true),
            Err(StepError::Fault(_)) => Ok(false),
            Err(StepError::Memory) => Err(AllocError),
        },
        StreamLine::End { .. } | StreamLine::Anr { .. } => Ok(true),
    }
}

/// Reads the lines of a stream file as long as they follow its grammar and each message is allowed where it stands.
#[derive(Drop)]
pub(crate) struct JudgedLines<'a> {
    lines: StreamLines<'a>,
    verifier: Verifier,
    alloc: Global,
}

impl<'a> Model for JudgedLines<'a> {
    ghost use Rattle.gesture_verifier.specs.Told.{state_of};
    ghost use Rattle.emit_text.specs.JudgedLines.{Unjudged, judged_lines};

    ghost Value = { Unjudged };

    ghost view = { λ l. record { left = l.lines.left; lines = judged_lines (state_of l.verifier) l.lines.events } };
}

impl<'a> JudgedLines<'a> {
    /// The lines of a stream file.
    pub(crate) fn new(alloc: Global, bytes: &'a [u8]) -> Result<JudgedLines<'a>, FileError>
        ensures ok { IfOk result (λ lines. lines.lines ≡ file_lines bytes.now) }
        ensures left { IfOk result (λ lines. lines.left ≤ length bytes.now + 1) }
        ensures err { (error : FileError) → result ≡ Err error → file_lines bytes.now ≡ Err error }
    {
        match StreamLines::new(bytes) {
            Ok(lines) => Ok(JudgedLines {
                lines,
                verifier: Verifier::new(alloc),
                alloc,
            }),
            Err(line) => Err(FileError::BadLine { line }),
        }
    }

    /// The next line with its number, or None at the end of the file. The file is refused for its first bad line, or
    /// else for the first message that is not allowed.
    pub(crate) fn next(&mut self) -> Result<Option<(u64, StreamLine)>, FileError>
        ensures { Judges self.old result self.new }
    {
        match self.lines.next() {
            Ok(None) => Ok(None),
            Err(line) => Err(FileError::BadLine { line }),
            Ok(Some((number, says))) => {
                if judge(self.alloc, &mut self.verifier, &says)? {
                    Ok(Some((number, says)))
                } else {
                    Err(refusal(number, &mut self.lines))
                }
            }
        }
    }
}
