//! Replies as they are printed.
use dispatch_calls::{Counts, Reply};
use input_types::Message;
use std::alloc::{AllocError, Global};
use stream_text::message_text;

/// A line more.
pub(crate) fn say(out: &mut Vec<u8>, text: &str) -> Result<(), AllocError> {
    out.extend_from_slice(text.as_bytes())?;
    out.push(b'\n')?;
    Ok(())
}

/// A reply that is nothing but a word.
fn word(reply: &Reply) -> &'static str {
    match reply {
        Reply::Full => "full",
        Reply::Done => "done",
        Reply::Taken => "taken",
        Reply::Dispatched => "dispatched",
        Reply::Repeated => "repeated",
        Reply::Idle => "idle",
        Reply::Empty => "empty",
        Reply::Gone => "gone",
        Reply::UnknownSeq => "unknown number",
        Reply::NotSpy => "not a spy",
        Reply::NothingHeld => "nothing held",
        _ => "",
    }
}

/// A reply.
pub(crate) fn say_reply(alloc: Global, reply: &Reply, out: &mut Vec<u8>) -> Result<(), AllocError> {
    match reply {
        Reply::Opened(id) => say(out, format!(in alloc; "opened {id}")?.as_str()),
        Reply::Inconsistent { pointers, key_down } => {
            let key = if *key_down { "down" } else { "up" };
            say(
                out,
                format!(in alloc; "inconsistent {pointers} {key}")?.as_str(),
            )
        }
        Reply::Named(mask) => say(out, format!(in alloc; "named {mask}")?.as_str()),
        Reply::Got(message) => {
            out.extend_from_slice(b"got ")?;
            message_text(message, out)
        }
        _ => say(out, word(reply)),
    }
}

/// The messages of a channel, each on a line of its own.
pub(crate) fn say_stream(
    messages: Option<&[Message]>,
    out: &mut Vec<u8>,
) -> Result<(), AllocError> {
    match messages {
        Some(messages) => {
            say(out, "")?;
            for message in messages {
                message_text(message, out)?;
            }
            Ok(())
        }
        None => say(out, "never opened"),
    }
}

/// How far a channel has come.
pub(crate) fn say_counts(
    alloc: Global,
    counts: Option<Counts>,
    out: &mut Vec<u8>,
) -> Result<(), AllocError> {
    match counts {
        Some(counts) => {
            let live = if counts.live { "live" } else { "removed" };
            let text = format!(in alloc;
                "sent {} received {} finished {} published {} {live}",
                counts.sent, counts.received, counts.finished, counts.published
            )?;
            say(out, text.as_str())
        }
        None => say(out, "never opened"),
    }
}

/// The first due of a channel.
pub(crate) fn say_due(
    alloc: Global,
    due: Option<(u64, u32)>,
    out: &mut Vec<u8>,
) -> Result<(), AllocError> {
    match due {
        Some((at, channel)) => say(out, format!(in alloc; "{at} {channel}")?.as_str()),
        None => say(out, "none"),
    }
}

/// When a repeat is due.
pub(crate) fn say_moment(
    alloc: Global,
    due: Option<u64>,
    out: &mut Vec<u8>,
) -> Result<(), AllocError> {
    match due {
        Some(at) => say(out, format!(in alloc; "{at}")?.as_str()),
        None => say(out, "none"),
    }
}
