//! The packets of a section's motions, as lines.
ghost use Rattle.std.specs.Prelude.{◌≡◌, ◌<◌, ◌++◌, List, [], IfOk, OnOk, IfErr};
ghost use Rattle.raw_events.specs.declared.event.RawEvent.{RawEvent};
ghost use Rattle.touch_writer.specs.Places.{IsRising};
ghost use Rattle.touch_writer_cooks.specs.Cooking.{first};
ghost use Rattle.touch_writer_cooks.specs.Reading.{lines};
ghost use Rattle.emit_text.specs.Packets.{limited, path};
ghost use Rattle.emit_text.specs.Written.{AddsPacket, RefusesPacket, Wrote};

use crate::error::{EmitError, packet_refusal};
use input_types::{DeviceId, Moment};
use raw_events::RawEvent;
use std::alloc::{AllocError, Global};
use touch_writer::{EventWriter, Want, Writer};

/// The path of the device that is written.
const PATH: &str = "/dev/input/event0";

/// The most bytes that a recording has.
const MOST_BYTES: usize = 33_554_432;

/// How many slots the device has.
const SLOTS: u8 = 16;

/// Adds the lines of events.
fn add_events(
    text: &mut Vec<u8>,
    writer: &mut EventWriter,
    events: &[RawEvent],
) -> Result<(), AllocError>
    ensures { IfOk result (λ _. text.new.items ≡ text.old.items ++ lines path events.now) }
{
    for event in events {
        writer.event(PATH, event, text)?;
    }
    Ok(())
}

/// Writes packets as lines, up to the most bytes that a recording has.
#[derive(Drop)]
pub(crate) struct Packets {
    writer: Writer,
    lines: EventWriter,
    /// The events of one packet. They keep their room.
    events: Vec<RawEvent>,
    text: Vec<u8>,
    /// Whether the lines of all packets have more bytes than a recording has. Nothing is then added to the text.
    over: bool,
}

impl Packets {
    /// No packet of this device yet.
    pub(crate) fn new(alloc: Global, device: DeviceId) -> Packets
        ensures writer { result.writer ≡ first device 16 }
        ensures wrote { Wrote [] result }
    {
        Packets {
            writer: Writer::new(device, SLOTS),
            lines: EventWriter::new(alloc),
            events: Vec::new(alloc),
            text: Vec::new(alloc),
            over: false,
        }
    }

    /// Adds the packet of the motion of a line, after which these contacts are down; their ids rise. After a refusal
    /// the writer is as before.
    pub(crate) fn add(&mut self, line: u64, moment: Moment, want: &[Want]) -> Result<(), EmitError>
        requires { IsRising want.now }
        ensures ok { (events : List RawEvent) → Wrote events self.old
            → OnOk result (AddsPacket events line moment want.now self.old self.new) }
        ensures err { IfErr result (RefusesPacket line moment want.now self.old self.new) }
    {
        if moment.get() == Moment::MAX_US {
            return Err(EmitError::TooLate { line });
        }
        self.events.clear();
        if let Err(error) = self.writer.packet(moment, want, &mut self.events) {
            return Err(packet_refusal(line, error));
        }
        self.add_lines()?;
        Ok(())
    }

    /// Adds the lines of the last packet.
    fn add_lines(&mut self) -> Result<(), AllocError>
        ensures wrote { (events : List RawEvent) → Wrote events self.old
            → OnOk result (Wrote (events ++ self.old.events.items) self.new) }
        ensures writer { self.new.writer ≡ self.old.writer }
    {
        if self.over {
            return Ok(());
        }
        add_events(&mut self.text, &mut self.lines, &self.events)?;
        self.over = self.text.len() > MOST_BYTES;
        Ok(())
    }

    /// The recording, if it has no more bytes than it may.
    pub(crate) fn end(self) -> Result<Vec<u8>, EmitError>
        ensures ok { (events : List RawEvent) → Wrote events self
            → IfOk result (λ text. limited (lines path events) ≡ Ok text.items) }
        ensures err { (events : List RawEvent) → Wrote events self
            → IfErr result (λ error. limited (lines path events) ≡ Err error) }
    {
        if self.over {
            Err(EmitError::TooLong)
        } else {
            Ok(self.text)
        }
    }
}
