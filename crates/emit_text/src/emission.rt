//! The first section of a channel, as its packets.
ghost use Rattle.std.specs.Prelude.{◌≡◌, ◌==◌, List, [], IfOk, IfErr, OnOk, Ok, Err};
ghost use Rattle.std.specs.Prelude.{false};
ghost use Rattle.raw_events.specs.declared.event.RawEvent.{RawEvent};
ghost use Rattle.touch_writer_cooks.specs.Cooking.{first};
ghost use Rattle.emit_text.specs.Reading.{Adds, Leads, RefusesMessage, Rest, begins};
ghost use Rattle.emit_text.specs.Written.{Wrote};

use crate::contacts::list_wanted;
use crate::error::EmitError;
use crate::packets::Packets;
use input_types::{DeviceId, Message};
use std::alloc::{AllocError, Global};
use stream_text::StreamLine;
use touch_writer::Want;

/// Where a reader of a channel's section is.
#[derive(Clone, Copy)]
pub(crate) enum Stage {
    /// The section has not begun.
    Before,
    /// Its messages are read.
    Open,
    /// It has ended.
    Behind,
    /// One of its motions is refused.
    Refused(EmitError),
}

/// Whether a line begins the section of a channel.
fn begins(says: &StreamLine, channel: u32) -> bool
    ensures { result ≡ begins channel says.now }
{
    match says {
        StreamLine::Channel { id } => *id == channel,
        _ => false,
    }
}

/// Writes the packets of a device in the first section of a channel.
#[derive(Drop)]
pub(crate) struct Emission {
    channel: u32,
    device: DeviceId,
    stage: Stage,
    /// What is down after a motion. It keeps its room.
    want: Vec<Want>,
    packets: Packets,
}

impl Emission {
    /// Before the first line of a file.
    pub(crate) fn new(alloc: Global, channel: u32, device: DeviceId) -> Emission
        ensures given { (result.channel ≡ channel) × (result.device ≡ device) }
        ensures stage { result.stage ≡ Stage.Before }
        ensures writer { result.packets.writer ≡ first device 16 }
        ensures wrote { Wrote [] result.packets }
    {
        Emission {
            channel,
            device,
            stage: Stage::Before,
            want: Vec::new(alloc),
            packets: Packets::new(alloc, device),
        }
    }

    /// Takes the next line of the file, whose number this is.
    pub(crate) fn take(&mut self, line: u64, says: &StreamLine) -> Result<(), AllocError>
        ensures { (events : List RawEvent) → Wrote events self.old.packets
            → OnOk result (Leads events line says.now self.old self.new) }
    {
        match self.stage {
            Stage::Before => {
                if begins(says, self.channel) {
                    self.stage = Stage::Open;
                }
                Ok(())
            }
            Stage::Open => self.take_next(line, says),
            Stage::Behind | Stage::Refused(_) => Ok(()),
        }
    }

    /// Takes a line after the first one of the section.
    fn take_next(&mut self, line: u64, says: &StreamLine) -> Result<(), AllocError>
        ensures { (events : List RawEvent) → Wrote events self.old.packets → self.old.stage ≡ Stage.Open
            → OnOk result (Leads events line says.now self.old self.new) }
    {
        let StreamLine::Message(message) = says else {
            self.stage = Stage::Behind;
            return Ok(());
        };
        match self.write(line, message) {
            Ok(()) => Ok(()),
            Err(error) => self.refuse(error),
        }
    }

    /// Keeps the refusal of a motion, unless memory ran out.
    fn refuse(&mut self, error: EmitError) -> Result<(), AllocError>
        ensures refused { OnOk result ((self.new.stage ≡ Stage.Refused error)
            × (error ≡ EmitError.Memory → ⊥)) }
        ensures stays { (self.new.packets ≡ self.old.packets) × (self.new.channel ≡ self.old.channel)
            × (self.new.device ≡ self.old.device) }
    {
        match error {
            EmitError::Memory => Err(AllocError),
            _ => {
                self.stage = Stage::Refused(error);
                Ok(())
            }
        }
    }

    /// Writes the packet of a message, if it is a motion that is written.
    fn write(&mut self, line: u64, message: &Message) -> Result<(), EmitError>
        ensures ok { (events : List RawEvent) → Wrote events self.old.packets
            → OnOk result ((behind : List RawEvent) × Wrote behind self.new.packets
            × Adds events line message.now self.old.device self.old.packets.writer self.new.packets.writer behind) }
        ensures err { IfErr result (RefusesMessage line message.now self.old.device self.old.packets self.new.packets) }
        ensures stays { (self.new.stage ≡ self.old.stage) × (self.new.channel ≡ self.old.channel)
            × (self.new.device ≡ self.old.device) }
    {
        if list_wanted(&mut self.want, self.device, &message.body)? {
            self.packets.add(line, message.moment, &self.want)
        } else {
            Ok(())
        }
    }

    /// The recording after the last line of the file, or why there is none.
    pub(crate) fn end(self) -> Result<Vec<u8>, EmitError>
        ensures ok { (events : List RawEvent) → Wrote events self.packets
            → IfOk result (λ text. Rest self events [] (Ok text.items)) }
        ensures err { (events : List RawEvent) → Wrote events self.packets
            → IfErr result (λ error. Rest self events [] (Err error)) }
    {
        match self.stage {
            Stage::Before => Err(EmitError::NoChannel),
            Stage::Open | Stage::Behind => self.packets.end(),
            Stage::Refused(error) => Err(error),
        }
    }
}
