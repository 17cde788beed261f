//! The rest of a file after a break.
ghost use Rattle.std.specs.Prelude.{◌≡◌};
ghost use Rattle.stream_judge.specs.Judged.{refused_at};

use crate::error::FileError;
use stream_text::StreamLines;

/// Why a file is refused if the message of line `line` is not allowed: the first bad line after it takes precedence, if
/// there is one. Reads the lines to their end.
pub fn refusal(line: u64, lines: &mut StreamLines<'_>) -> FileError
    ensures { result ≡ refused_at line lines.old.events }
{
    'lines: loop {
        match lines.next() {
            Ok(Some(_)) => {}
            Ok(None) => return FileError::NotWellFormed { line },
            Err(line) => return FileError::BadLine { line },
        }
    }
}
