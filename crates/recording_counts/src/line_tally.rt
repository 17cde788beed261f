//! The lines of a recording that comes in pieces.
ghost use Rattle.std.specs.Prelude.{◌≡◌, ◌++◌, [], ℕ, List, length, reverse, OnOk};
ghost use Rattle.raw_events.specs.Line.{Known, known};
ghost use Rattle.raw_events.specs.Pieces.{last_line, parts};
ghost use Rattle.raw_events.specs.Recording.{line_len, lines_of};
ghost use Rattle.recording_counts.specs.LineTally.{LineCountsStandFor, LineTallyStandsFor};

use crate::cut::next_line;
use crate::lines::{LineCounts, count_line, count_lines};
use input_types::DeviceId;
use std::alloc::AllocError;
use std::marker::Model;

/// Counts the lines of a recording that comes in pieces of any length, for the devices of a session with their paths.
///
/// A clause sees the devices, the bytes of the line that has begun, and the counts of the lines before it. How the
/// bytes were cut makes no difference. A line that is refused is counted too: that there is none is for the caller to
/// know.
#[derive(Drop)]
pub struct LineTally {
    devices: Vec<(String, DeviceId)>,
    begun: Vec<u8>,
    counts: LineCounts,
}

impl Model for LineTally {
    ghost use Rattle.raw_events.specs.Line.{known};
    ghost use Rattle.recording_counts.specs.LineTally.{LinesState};

    ghost Value = { LinesState };

    ghost view = { λ t. record { devices = known t.devices.items; begun = t.begun.items; counts = t.counts } };
}

impl LineTally {
    /// Before the first byte of a recording. The first entry is the first device of the session.
    pub fn new(paths: Vec<(String, DeviceId)>) -> LineTally
        ensures { LineTallyStandsFor (known paths.items) [] result }
    {
        let alloc = *paths.allocator();
        LineTally {
            devices: paths,
            begun: Vec::new(alloc),
            counts: LineCounts::new(alloc),
        }
    }

    /// Feeds the next piece.
    pub fn feed(&mut self, piece: &[u8]) -> Result<(), AllocError>
        ensures { (devices : Known) (bytes : List ℕ) → LineTallyStandsFor devices bytes self.old
            → OnOk result (LineTallyStandsFor devices (bytes ++ piece.now) self.new) }
    {
        go_on(&self.devices, &mut self.begun, &mut self.counts, piece)
    }

    /// Takes what has begun as a last line, if there is anything. It is the last call before `counts`.
    pub fn finish(&mut self) -> Result<(), AllocError>
        ensures { (devices : Known) (bytes : List ℕ) → LineTallyStandsFor devices bytes self.old
            → OnOk result (LineCountsStandFor devices (reverse (lines_of bytes)) self.new.counts) }
    {
        count_last(&self.devices, &mut self.counts, &self.begun)
    }

    /// What was counted of the lines that ended.
    pub fn counts(&self) -> &LineCounts
        ensures { result.now ≡ self.now.counts }
    {
        &self.counts
    }
}

/// Feeds bytes that begin with a new line. What has begun before goes away.
fn begin(
    devices: &[(String, DeviceId)],
    begun: &mut Vec<u8>,
    counts: &mut LineCounts,
    bytes: &[u8],
) -> Result<(), AllocError>
    ensures counts { (past : List (List ℕ)) → LineCountsStandFor (known devices.now) past counts.old
        → OnOk result (LineCountsStandFor (known devices.now) (reverse (parts bytes.now).ended ++ past) counts.new) }
    ensures begun { OnOk result (begun.new.items ≡ (parts bytes.now).begun) }
{
    let rest = count_lines(devices, counts, bytes)?;
    begun.clear();
    begun.extend_from_slice(rest)
}

/// Feeds a piece behind the bytes of the line that has begun, which have no newline.
fn go_on(
    devices: &[(String, DeviceId)],
    begun: &mut Vec<u8>,
    counts: &mut LineCounts,
    piece: &[u8],
) -> Result<(), AllocError>
    ensures counts { (past : List (List ℕ)) → line_len begun.old.items ≡ length begun.old.items
        → LineCountsStandFor (known devices.now) past counts.old → OnOk result (LineCountsStandFor (known devices.now)
        (reverse (parts (begun.old.items ++ piece.now)).ended ++ past) counts.new) }
    ensures begun { line_len begun.old.items ≡ length begun.old.items
        → OnOk result (begun.new.items ≡ (parts (begun.old.items ++ piece.now)).begun) }
{
    let Some((end, after)) = next_line(piece) else {
        return begun.extend_from_slice(piece);
    };
    begun.extend_from_slice(end)?;
    count_line(devices, counts, begun.as_slice())?;
    begin(devices, begun, counts, after)
}

/// Takes what stands behind the last newline, where anything does.
fn count_last(
    devices: &[(String, DeviceId)],
    counts: &mut LineCounts,
    last: &[u8],
) -> Result<(), AllocError>
    ensures { (past : List (List ℕ)) → LineCountsStandFor (known devices.now) past counts.old
        → OnOk result (LineCountsStandFor (known devices.now) (last_line last.now ++ past) counts.new) }
{
    if last.is_empty() {
        return Ok(());
    }
    count_line(devices, counts, last)
}
