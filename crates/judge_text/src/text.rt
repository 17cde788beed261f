//! The judging of a whole file.
ghost use Rattle.std.specs.Prelude.{◌≡◌, Ok, IfOk, IfErr};
ghost use Rattle.judge_text.specs.Judged.{Refuses, judged};

use crate::error::JudgeError;
use crate::judge::Judge;
use std::alloc::Global;
use stream_text::StreamLines;

/// The text for the bytes of a stream file whose sections are all whole: a line for each section, with its channel and
/// how many messages it has, and a last line with the numbers of sections and of messages.
///
/// The file is refused for its first bad line; then for the first message that is not allowed where it stands, with the
/// reason; then for the first section after which a pointer or a key is down; and then if it has no message.
pub fn judge_text(alloc: Global, bytes: &[u8]) -> Result<Vec<u8>, JudgeError>
    ensures ok { IfOk result (λ text. judged bytes.now ≡ Ok text.items) }
    ensures err { IfErr result (Refuses (judged bytes.now)) }
{
    let mut lines = match StreamLines::new(bytes) {
        Ok(lines) => lines,
        Err(line) => return Err(JudgeError::BadLine { line }),
    };
    let mut judge = Judge::new(alloc);
    'lines: loop {
        match lines.next() {
            Ok(Some((number, line))) => judge.take(number, &line)?,
            Ok(None) => return judge.end(),
            Err(line) => return Err(JudgeError::BadLine { line }),
        }
    }
}
