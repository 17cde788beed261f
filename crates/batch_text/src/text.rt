//! The text of a whole file.
ghost use Rattle.std.specs.Prelude.{◌≡◌, ◌≤◌, Ok, IfOk, IfErr};
ghost use Rattle.stream_text.specs.StreamAnswer.{channel_sent};
ghost use Rattle.stream_judge.specs.Judged.{Refuses};
ghost use Rattle.batch_text.specs.Text.{batched};

use crate::item::add_channel;
use crate::section::{next_line, section};
use std::alloc::Global;
use stream_judge::FileError;
use stream_text::{StreamLine, StreamLines};

/// The channel whose section a line begins.
fn channel_of(says: &StreamLine) -> Option<u32>
    ensures { result ≡ channel_sent says.now }
{
    match says {
        StreamLine::Channel { id } => Some(*id),
        _ => None,
    }
}

/// The items of a stream file's messages for an application that begins a frame every `frame` microseconds: a section
/// for each channel.
///
/// A message counts at the latest time of its section so far. A frame comes before the first message in it. The file is
/// refused as `verify` refuses it: for its first bad line, or else for the first message that is not allowed where it
/// stands.
pub fn batch_text(alloc: Global, bytes: &[u8], frame: u64) -> Result<Vec<u8>, FileError>
    requires { 1 ≤ frame }
    ensures ok { IfOk result (λ text. batched frame bytes.now ≡ Ok text.items) }
    ensures err { IfErr result (Refuses (batched frame bytes.now)) }
{
    let mut lines = match StreamLines::new(bytes) {
        Ok(lines) => lines,
        Err(line) => return Err(FileError::BadLine { line }),
    };
    let mut text = Vec::new(alloc);
    let mut line = next_line(&mut lines)?;
    'lines: while let Some((_, says)) = line {
        if let Some(id) = channel_of(&says) {
            add_channel(&mut text, id)?;
            line = section(alloc, &mut lines, frame, &mut text)?;
        } else {
            line = next_line(&mut lines)?;
        }
    }
    Ok(text)
}
