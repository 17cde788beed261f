//! The sections of a file.
ghost use Rattle.std.specs.Prelude.{◌≡◌, ◌+◌, ◌<◌, ◌≤◌, true, map, Ok, Err, IfOk, IfErr};
ghost use Rattle.compare_text.specs.Indexed.{Reads, are_opened, count_of, file_sections, message_at, seen};
ghost use Rattle.stream_text.specs.StreamAnswer.{channel_sent};

use crate::section::Opened;
use std::alloc::Global;
use std::marker::Model;
use stream_text::{StreamError, StreamLine, StreamLines};

/// The sections of a stream file none of whose lines is bad. It borrows the file and keeps no message.
#[derive(Drop)]
pub struct Sections<'a> {
    pub(crate) sections: Vec<Opened<'a>>,
    /// How many messages they have: so a count of points fits 64 bits.
    pub(crate) messages: u64,
}

impl<'a> Model for Sections<'a> {
    ghost use Rattle.std.specs.Prelude.{◌≡◌, ◌<◌, ◌^◌, List, map, true};
    ghost use Rattle.compare_text.specs.Indexed.{are_opened, count_of, seen};
    ghost use Rattle.compare_text.specs.Points.{Section};

    ghost Value = { List Section };

    ghost view = { λ s. map seen s.sections.items };

    ghost invariant = { λ s. (are_opened s.sections.items ≡ true)
        × (s.messages ≡ count_of (map seen s.sections.items)) × (count_of (map seen s.sections.items) < 2 ^ 64) };
}

/// The channel whose section a line begins.
fn channel_of(says: &StreamLine) -> Option<u32>
    ensures { result ≡ channel_sent says.now }
{
    match says {
        StreamLine::Channel { id } => Some(*id),
        _ => None,
    }
}

/// How many messages a line is.
fn message_at(says: &StreamLine) -> u64
    ensures value { result ≡ message_at says.now }
    ensures range { result ≤ 1 }
{
    match says {
        StreamLine::Message(_) => 1,
        _ => 0,
    }
}

impl<'a> Sections<'a> {
    /// The sections of a stream file's bytes. The refusal is that of the first line that is malformed, does not fit
    /// at its place, or is missing.
    pub fn read(alloc: Global, bytes: &'a [u8]) -> Result<Sections<'a>, StreamError>
        ensures ok { IfOk result (λ sections. file_sections bytes.now ≡ Ok sections) }
        ensures err { IfErr result (Reads (file_sections bytes.now)) }
    {
        let mut lines = match StreamLines::new(bytes) {
            Ok(lines) => lines,
            Err(line) => return Err(StreamError::BadLine { line }),
        };
        let mut sections = Vec::new(alloc);
        let mut messages: u64 = 0;
        'lines: loop {
            match lines.next() {
                Ok(Some((line, says))) => match channel_of(&says) {
                    Some(id) => {
                        let lines = lines.again();
                        sections.push(Opened { id, line, lines })?;
                    }
                    None => messages += message_at(&says),
                },
                Ok(None) => return Ok(Sections { sections, messages }),
                Err(line) => return Err(StreamError::BadLine { line }),
            }
        }
    }
}
