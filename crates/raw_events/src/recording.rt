//! The events of a whole recording.
ghost use Rattle.std.specs.List.{flat_map};
ghost use Rattle.raw_events.specs.Line.{known};
ghost use Rattle.raw_events.specs.Recording.{recorded, Answers};

use crate::event::{LineError, RawEvent};
use crate::piece::{read_lines, tell_last};
use crate::reader::LineReader;
use input_types::DeviceId;
use std::alloc::Global;

/// The events of a recording in the form that `getevent -t` prints, of the devices of a session with their paths.
///
/// A line that begins with `[` must have the form `[ SECONDS.FRACTION ] PATH: TYPE CODE VALUE`; without a path it
/// belongs to the first device. Lines of other devices and other lines are skipped, but a line without a time is
/// refused. The answer is the refusal of the first refused line, if there is one.
#[tactic(auto, unfolding(crate::specs::Recording::recorded))]
pub fn events_of(
    alloc: Global,
    devices: &[(String, DeviceId)],
    bytes: &[u8],
) -> Result<Vec<RawEvent>, LineError>
    ensures { Answers result (recorded (known devices.now) bytes.now) }
{
    let mut events = Vec::new(alloc);
    let (number, last) = read_lines(devices, 1, bytes, &mut events)?;
    tell_last(devices, number, last, &mut events)?;
    Ok(events)
}

/// The events of a recording that comes in these pieces, of the devices of a session with their paths.
///
/// It makes no difference where it was cut: the answer is that for all bytes in one piece.
pub fn read_pieces(
    paths: Vec<(String, DeviceId)>,
    pieces: &[Vec<u8>],
) -> Result<Vec<RawEvent>, LineError>
    ensures { Answers result (recorded (known paths.items) (flat_map (λ piece. piece.items) pieces.now)) }
{
    let mut events = Vec::new(*paths.allocator());
    let mut reader = LineReader::new(paths)?;
    for piece in pieces {
        reader.feed(piece, &mut events)?;
    }
    reader.finish(&mut events)?;
    Ok(events)
}
