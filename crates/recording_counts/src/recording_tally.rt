//! The counts of a recording while it comes.
ghost use Rattle.std.specs.Prelude.{◌≡◌, [], ◌++◌, ℕ, List, Ok};
ghost use Rattle.raw_events.specs.Line.{Known};
ghost use Rattle.device_reader.specs.Cooked.{DevicePlan};
ghost use Rattle.recording_counts.specs.LineTally.{LineTallyStandsFor};
ghost use Rattle.recording_counts.specs.EventTally.{EventTallyStandsFor};
ghost use Rattle.recording_counts.specs.RecordingTally.{Counts, Ends, HasCounted};

use crate::event_tally::EventTally;
use crate::line_tally::LineTally;
use crate::lines::LineCounts;
use raw_events::{LineError, LineReader, RawEvent};
use std::alloc::Global;
use std::marker::Model;

/// Reads a recording in pieces of any length, and counts its lines and its events.
///
/// Contracts see where the reader stands, and both counts. A piece is read first, and counted if no line of it is
/// refused.
#[derive(Drop)]
pub struct RecordingTally {
    reader: LineReader,
    lines: LineTally,
    events: EventTally,
    /// The events of a piece.
    buffer: Vec<RawEvent>,
}

impl Model for RecordingTally {
    ghost use Rattle.recording_counts.specs.RecordingTally.{TallyState};

    ghost Value = { TallyState };

    ghost view = { λ t. record { reader = t.reader; lines = t.lines; events = t.events } };
}

impl RecordingTally {
    /// Before the first byte of a recording. All three parts have the devices of the same session.
    pub fn new(
        alloc: Global,
        reader: LineReader,
        lines: LineTally,
        events: EventTally,
    ) -> RecordingTally
        ensures { (devices : Known) (plans : List DevicePlan) → reader
            ≡ record { devices = devices; place = Ok (1, []) } → LineTallyStandsFor devices [] lines
            → EventTallyStandsFor plans [] events → HasCounted devices plans [] result }
    {
        RecordingTally {
            reader,
            lines,
            events,
            buffer: Vec::new(alloc),
        }
    }

    /// Feeds the next piece. A line is refused at its newline, or at its 4,097th byte; that is then the answer for the
    /// whole recording, whatever follows. After a refusal, or if memory runs out, the counts mean nothing.
    pub fn feed(&mut self, piece: &[u8]) -> Result<(), LineError>
        ensures { (devices : Known) (plans : List DevicePlan) (bytes : List ℕ) → HasCounted devices plans bytes self.old
            → Counts result devices plans (bytes ++ piece.now) self.new }
    {
        self.buffer.clear();
        self.reader.feed(piece, &mut self.buffer)?;
        self.lines.feed(piece)?;
        self.events.take_all(&self.buffer)?;
        Ok(())
    }

    /// Takes what has begun as a last line, if there is anything. It is the last call before `lines` and `events`.
    pub fn finish(&mut self) -> Result<(), LineError>
        ensures { (devices : Known) (plans : List DevicePlan) (bytes : List ℕ) → HasCounted devices plans bytes self.old
            → Ends result devices plans bytes self.new }
    {
        self.buffer.clear();
        self.reader.finish(&mut self.buffer)?;
        self.lines.finish()?;
        self.events.take_all(&self.buffer)?;
        Ok(())
    }

    /// What was counted of the lines.
    pub fn lines(&self) -> &LineCounts
        ensures { result.now ≡ self.now.lines.counts }
    {
        self.lines.counts()
    }

    /// What was counted of the events.
    pub fn events(&self) -> &EventTally
        ensures { result.now ≡ self.now.events }
    {
        &self.events
    }
}
