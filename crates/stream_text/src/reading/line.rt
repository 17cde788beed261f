//! Reading a line of a stream file.
ghost use Rattle.std.specs.Prelude.{◌≡◌, cond, Some, None, option_map};
ghost use Rattle.stream_text.specs.StreamLine.{channel_at, channel_of, end_of, is_name, is_name_byte, line_of, anr_of};
ghost use Rattle.std.specs.List.{list_all};

use crate::reading::message::message;
use crate::reading::number::{labeled, number, past};
use crate::stream_line::StreamLine;
use input_types::Moment;

#[inline(always)]
#[tactic(auto, unfolding(crate::specs::StreamLine::channel_at))]
fn channel_id(bytes: &[u8]) -> Option<(u32, &[u8])>
    ensures { option_map (λ read. (read.0, read.1.now)) result ≡ channel_at bytes.now }
{
    let (n, rest) = number(64, bytes)?;
    if n == 0 {
        return None;
    }
    Some((n as u32, rest))
}

fn are_name_bytes(bytes: &[u8]) -> bool
    ensures { result ≡ list_all is_name_byte bytes.now }
{
    for b in bytes {
        if *b < b'!' || *b > b'~' {
            return false;
        }
    }
    true
}

fn is_channel_name(bytes: &[u8]) -> bool
    ensures { result ≡ is_name bytes.now }
{
    !bytes.is_empty() && bytes.len() <= 64 && are_name_bytes(bytes)
}

#[tactic(auto, unfolding(crate::specs::StreamLine::channel_of))]
fn channel(bytes: &[u8]) -> Option<StreamLine>
    ensures { result ≡ channel_of bytes.now }
{
    let (id, rest) = channel_id(bytes)?;
    let name = past(" ", rest)?;
    if is_channel_name(name) {
        Some(StreamLine::Channel { id })
    } else {
        None
    }
}

#[tactic(auto, unfolding(crate::specs::StreamLine::end_of))]
fn end(bytes: &[u8]) -> Option<StreamLine>
    ensures { result ≡ end_of bytes.now }
{
    let (id, rest) = channel_id(bytes)?;
    let (sent, rest) = labeled(" sent ", u64::MAX, rest)?;
    let (received, rest) = labeled(" received ", u64::MAX, rest)?;
    let (finished, rest) = labeled(" finished ", u64::MAX, rest)?;
    if !rest.is_empty() {
        return None;
    }
    Some(StreamLine::End {
        id,
        sent,
        received,
        finished,
    })
}

#[tactic(auto, unfolding(crate::specs::StreamLine::anr_of))]
fn anr(bytes: &[u8]) -> Option<StreamLine>
    ensures { result ≡ anr_of bytes.now }
{
    let (clock, rest) = number(Moment::MAX_US, bytes)?;
    let rest = past(" ", rest)?;
    let (id, rest) = channel_id(rest)?;
    let (seq, rest) = labeled(" ", u64::MAX, rest)?;
    if !rest.is_empty() {
        return None;
    }
    let clock = Moment::new(clock)?;
    Some(StreamLine::Anr { clock, id, seq })
}

/// Writes what was read to a variable, if something was, and returns whether it was.
#[inline(always)]
fn put(read: Option<StreamLine>, says: &mut StreamLine) -> bool
    ensures { cond result (Some says.new) None ≡ read }
{
    match read {
        Some(read) => {
            *says = read;
            true
        }
        None => false,
    }
}

/// Reads a line as `StreamLine::read` does, into a variable, and returns whether it has one of the four forms.
#[tactic(auto, unfolding(crate::specs::StreamLine::line_of))]
pub(crate) fn read_line(line: &[u8], says: &mut StreamLine) -> bool
    ensures { cond result (Some says.new) None ≡ line_of line.now }
{
    if let Some(rest) = past("channel ", line) {
        return put(channel(rest), says);
    }
    if let Some(rest) = past("end ", line) {
        return put(end(rest), says);
    }
    if let Some(rest) = past("anr ", line) {
        return put(anr(rest), says);
    }
    message(line, says)
}
