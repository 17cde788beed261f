//! A recording that comes in pieces.
ghost use Rattle.std.specs.Prelude.{◌≡◌, IfOk, []};
ghost use Rattle.raw_events.specs.Line.{known};
ghost use Rattle.raw_events.specs.Pieces.{fed, finished, Does};

use crate::event::{LineError, RawEvent};
use crate::line::MAX_LINE;
use crate::piece::read_piece;
use input_types::DeviceId;
use std::alloc::AllocError;
use std::marker::Model;

/// Reads a recording in pieces of any length, for the devices of a session with their paths.
///
/// Contracts see the devices, and where the reader stands: at the number of the line that has begun, with its bytes, or
/// at the refusal of a line. It makes no difference where the bytes were cut.
#[derive(Drop)]
pub struct LineReader {
    devices: Vec<(String, DeviceId)>,
    kept: Vec<u8>,
    number: u64,
    refusal: Option<LineError>,
}

impl Model for LineReader {
    ghost use Rattle.raw_events.specs.Line.{known};
    ghost use Rattle.raw_events.specs.Pieces.{Reader};
    ghost use Rattle.raw_events.specs.Kept.{place_now, IsKept, IsCause};
    ghost use Rattle.std.specs.Prelude.{vec_capacity};

    ghost Value = { Reader };

    ghost view = { λ r. record { devices = known r.devices.items; place = place_now r.number r.kept.items r.refusal } };

    ghost invariant = { λ r. IsKept r.kept.items (vec_capacity r.kept) × IsCause r.refusal };
}

impl LineReader {
    /// A reader before the first byte of a recording. The first entry is the first device of the session.
    ///
    /// It takes the memory for the longest line. After that only an event requests memory.
    pub fn new(paths: Vec<(String, DeviceId)>) -> Result<LineReader, AllocError>
        ensures { IfOk result (λ r. r ≡ record { devices = known paths.items; place = Ok (1, []) }) }
    {
        let kept = Vec::with_capacity(*paths.allocator(), MAX_LINE)?;
        Ok(LineReader {
            devices: paths,
            kept,
            number: 1,
            refusal: None,
        })
    }

    /// Appends the events of the lines that end in this piece. A line is refused at its newline, or at its 4,097th
    /// byte. The events of the lines before it are then in `out`, and each later call returns the same refusal. Out of
    /// memory leaves the reader and `out` as they were.
    pub fn feed(&mut self, piece: &[u8], out: &mut Vec<RawEvent>) -> Result<(), LineError>
        ensures { Does result (fed self.old piece.now) self.old self.new out.old.items out.new.items }
    {
        if let Some(refusal) = self.refusal {
            return Err(refusal);
        }
        let kept = self.kept.len();
        let told = out.len();
        match read_piece(&self.devices, &mut self.kept, self.number, piece, out) {
            Ok(number) => {
                self.number = number;
                Ok(())
            }
            Err(LineError::Memory) => {
                self.kept.truncate(kept);
                out.truncate(told);
                Err(LineError::Memory)
            }
            Err(refusal) => {
                self.refusal = Some(refusal);
                Err(refusal)
            }
        }
    }

    /// Takes what has begun as a last line, if there is anything. The next byte begins a new line.
    pub fn finish(&mut self, out: &mut Vec<RawEvent>) -> Result<(), LineError>
        ensures { Does result (finished self.old) self.old self.new out.old.items out.new.items }
    {
        let end: &[u8] = if self.kept.is_empty() { b"" } else { b"\n" };
        self.feed(end, out)
    }
}
