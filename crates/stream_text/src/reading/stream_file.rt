//! The streams of a stream file.
ghost use Rattle.std.specs.Prelude.{◌≡◌, ◌+◌, ◌^◌, ◌<◌, ◌≤◌, IfOk, IfSome, OnOk, Ok, Err};
ghost use Rattle.stream_text.specs.StreamFile.{events_of, streams_in};
ghost use Rattle.stream_text.specs.StreamAnswer.{Answers, ReadsSection, Finds, channel_sent, message_sent, pending};
ghost use Rattle.std.specs.Prelude.{List, Option};
ghost use Rattle.stream_text.specs.declared.order_line.OrderLine.{OrderLine};
ghost use Rattle.stream_text.specs.StreamText.{AreAnrs, AreSections, IsStreamFile, MayBeOrder, Anr, Section, line_behind, stream_text, streams_from};

use crate::reading::stream_lines::StreamLines;
use crate::stream_error::StreamError;
use crate::stream_line::StreamLine;
use input_types::Message;
use std::alloc::Global;

/// The stream of a section of a stream file.
#[derive(Drop)]
pub struct StreamChannel {
    /// The number of the channel, 1 to 64.
    pub id: u32,
    /// The number of the line after the section's first one, which is that of its first message. Lines are numbered
    /// from 1.
    pub first_line: u64,
    pub messages: Vec<Message>,
}

/// The streams of a stream file, in the order of its sections.
#[derive(Drop)]
pub struct StreamFile {
    pub channels: Vec<StreamChannel>,
}

/// Reads stream files.
pub struct StreamReader;

/// The next line, if one is left.
fn next_line(lines: &mut StreamLines<'_>) -> Result<Option<(u64, StreamLine)>, StreamError>
    ensures line { Finds lines.old.events result lines.new.events }
    ensures left { IfOk result (λ line. lines.new.left + pending line ≤ lines.old.left) }
    ensures range { IfOk result (λ line. IfSome line (λ event. event.0 + 1 < 2 ^ 64)) }
{
    match lines.next() {
        Ok(line) => Ok(line),
        Err(line) => Err(StreamError::BadLine { line }),
    }
}

/// The message that a line is.
fn message_of(line: &Option<(u64, StreamLine)>) -> Option<Message>
    ensures { result ≡ message_sent line.now }
{
    match line {
        Some((_, StreamLine::Message(message))) => Some(*message),
        _ => None,
    }
}

/// The channel whose section a line begins.
fn channel_of(says: &StreamLine) -> Option<u32>
    ensures { result ≡ channel_sent says.now }
{
    match says {
        StreamLine::Channel { id } => Some(*id),
        _ => None,
    }
}

/// The messages of a section, and the line behind them.
fn section(
    alloc: Global,
    lines: &mut StreamLines<'_>,
) -> Result<(Vec<Message>, Option<(u64, StreamLine)>), StreamError>
    ensures section { ReadsSection lines.old.events result lines.new.events }
    ensures left { IfOk result (λ section. lines.new.left + pending section.1 ≤ lines.old.left) }
    ensures range { IfOk result (λ section. IfSome section.1 (λ event. event.0 + 1 < 2 ^ 64)) }
{
    let mut messages = Vec::new(alloc);
    'messages: loop {
        let line = next_line(lines)?;
        let Some(message) = message_of(&line) else {
            return Ok((messages, line));
        };
        messages.push(message)?;
    }
}

/// The streams of a stream file.
fn streams(alloc: Global, bytes: &[u8]) -> Result<StreamFile, StreamError>
    ensures { Answers result (streams_in (events_of bytes.now)) }
{
    let mut lines = match StreamLines::new(bytes) {
        Ok(lines) => lines,
        Err(line) => return Err(StreamError::BadLine { line }),
    };
    let mut channels = Vec::new(alloc);
    let mut line = next_line(&mut lines)?;
    'lines: while let Some((number, says)) = line {
        if let Some(id) = channel_of(&says) {
            let (messages, behind) = section(alloc, &mut lines)?;
            channels.push(StreamChannel {
                id,
                first_line: number + 1,
                messages,
            })?;
            line = behind;
        } else {
            line = next_line(&mut lines)?;
        }
    }
    Ok(StreamFile { channels })
}

impl StreamReader {
    /// The streams of a stream file: perhaps an order, which is skipped, then sections of channels, and ANRs.
    ///
    /// It accepts exactly the texts that `order_text`, `channel_text` and `anr_text` append one after another, with the
    /// k-th message of a section numbered k and the number of messages at the end of a section. The refusal is that of
    /// the first line that does not have its form, does not fit there, or is missing. The last line must end in a
    /// newline.
    pub fn read(alloc: Global, bytes: &[u8]) -> Result<StreamFile, StreamError>
        ensures exact { Answers result (streams_in (events_of bytes.now)) }
        ensures again { (order : Option (List OrderLine)) → (sections : List Section) → (anrs : List Anr)
            → MayBeOrder order → AreSections sections → AreAnrs anrs
            → bytes.now ≡ stream_text order sections anrs
            → Answers result (Ok (streams_from (line_behind order) sections)) }
        ensures only { OnOk result (IsStreamFile bytes.now) }
    {
        streams(alloc, bytes)
    }
}
