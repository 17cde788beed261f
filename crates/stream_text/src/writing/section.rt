//! Sections of channels, and ANR lines.
ghost use Rattle.std.specs.Prelude.{◌≡◌, ◌++◌, IfOk, OnOk, OnErr};
ghost use Rattle.stream_text.specs.Spelling.{channel_line, channel_section, end_line, anr_line};

use crate::writing::message::add_messages;
use dispatch_calls::Counts;
use input_types::{Message, Moment};
use std::alloc::AllocError;
use text_lines::{add_labeled, add_number, add_word};

#[tactic(auto, unfolding(crate::specs::Spelling::channel_line))]
fn add_channel(text: &mut Vec<u8>, id: u32, name: &str) -> Result<(), AllocError>
    ensures { IfOk result (λ _. text.new.items ≡ text.old.items ++ channel_line id name.now) }
{
    add_word(text, "channel ")?;
    add_number(text, u64::from(id))?;
    add_word(text, " ")?;
    add_word(text, name)?;
    add_word(text, "\n")
}

#[tactic(auto, unfolding(crate::specs::Spelling::end_line))]
fn add_end(
    text: &mut Vec<u8>,
    id: u32,
    sent: u64,
    received: u64,
    finished: u64,
) -> Result<(), AllocError>
    ensures { IfOk result (λ _. text.new.items ≡ text.old.items ++ end_line id sent received finished) }
{
    add_labeled(text, "end ", u64::from(id))?;
    add_labeled(text, " sent ", sent)?;
    add_labeled(text, " received ", received)?;
    add_labeled(text, " finished ", finished)?;
    add_word(text, "\n")
}

#[tactic(auto, unfolding(crate::specs::Spelling::anr_line))]
fn add_anr(text: &mut Vec<u8>, clock: u64, channel: u32, seq: u64) -> Result<(), AllocError>
    ensures { IfOk result (λ _. text.new.items ≡ text.old.items ++ anr_line clock channel seq) }
{
    add_labeled(text, "anr ", clock)?;
    add_labeled(text, " ", u64::from(channel))?;
    add_labeled(text, " ", seq)?;
    add_word(text, "\n")
}

/// Appends the section of a channel: its number and name, a line for each message of its stream, and how many of them
/// were sent, received and finished. If memory runs out, `out` is as before.
pub fn channel_text(
    id: u32,
    name: &str,
    stream: &[Message],
    counts: Counts,
    out: &mut Vec<u8>,
) -> Result<(), AllocError>
    ensures ok { OnOk result (out.new.items ≡ out.old.items ++ channel_section id name.now stream.now counts) }
    ensures err { OnErr result (out.new.items ≡ out.old.items) }
{
    let mut text = Vec::new(*out.allocator());
    add_channel(&mut text, id, name)?;
    add_messages(&mut text, stream)?;
    add_end(&mut text, id, counts.sent, counts.received, counts.finished)?;
    out.extend_from_slice(&text)
}

/// Appends the first line of a channel's section: its number and name. If memory runs out, `out` is as before.
pub fn channel_line_text(id: u32, name: &str, out: &mut Vec<u8>) -> Result<(), AllocError>
    ensures ok { OnOk result (out.new.items ≡ out.old.items ++ channel_line id name.now) }
    ensures err { OnErr result (out.new.items ≡ out.old.items) }
{
    let mut text = Vec::new(*out.allocator());
    add_channel(&mut text, id, name)?;
    out.extend_from_slice(&text)
}

/// Appends the last line of a channel's section: how many messages were sent, received and finished. If memory runs
/// out, `out` is as before.
pub fn end_line_text(
    id: u32,
    sent: u64,
    received: u64,
    finished: u64,
    out: &mut Vec<u8>,
) -> Result<(), AllocError>
    ensures ok { OnOk result (out.new.items ≡ out.old.items ++ end_line id sent received finished) }
    ensures err { OnErr result (out.new.items ≡ out.old.items) }
{
    let mut text = Vec::new(*out.allocator());
    add_end(&mut text, id, sent, received, finished)?;
    out.extend_from_slice(&text)
}

/// Appends the line of an ANR: at `clock` the channel was reported unresponsive for its message `seq`. If memory runs
/// out, `out` is as before.
pub fn anr_text(clock: Moment, channel: u32, seq: u64, out: &mut Vec<u8>) -> Result<(), AllocError>
    ensures ok { OnOk result (out.new.items ≡ out.old.items ++ anr_line clock channel seq) }
    ensures err { OnErr result (out.new.items ≡ out.old.items) }
{
    let mut text = Vec::new(*out.allocator());
    add_anr(&mut text, clock.get(), channel, seq)?;
    out.extend_from_slice(&text)
}
