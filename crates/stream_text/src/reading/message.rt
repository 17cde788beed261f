//! Reading the line of a message.
ghost use Rattle.std.specs.Prelude.{◌≡◌, codes, cond, Some, None};
ghost use Rattle.stream_text.specs.Number.{after};
ghost use Rattle.stream_text.specs.MessageLine.{body_of, focus_of, message_of};
ghost use Rattle.stream_text.specs.StreamLine.{line_that_says, line_that_sends};

use crate::reading::key::key;
use crate::reading::motion::motion;
use crate::reading::number::{labeled, number, past};
use crate::stream_line::StreamLine;
use input_types::{Body, Message, Moment};

#[tactic(auto, unfolding(crate::specs::MessageLine::focus_of))]
fn focus(bytes: &[u8]) -> Option<bool>
    ensures { result ≡ focus_of bytes.now }
{
    let (n, rest) = number(1, bytes)?;
    if !rest.is_empty() {
        return None;
    }
    Some(n == 1)
}

/// Reads a message with this number and time that is no motion, and returns whether it is one.
#[inline(never)]
#[tactic(auto, unfolding(crate::specs::MessageLine::body_of))]
fn other_body(seq: u64, moment: Moment, bytes: &[u8], says: &mut StreamLine) -> bool
    ensures { after (codes "motion ") bytes.now ≡ None
        → cond result (Some says.new) None ≡ line_that_says seq moment (body_of bytes.now) }
{
    let body = if let Some(rest) = past("key ", bytes) {
        let Some(key) = key(rest) else {
            return false;
        };
        Body::Key(key)
    } else {
        let Some(rest) = past("focus ", bytes) else {
            return false;
        };
        let Some(focus) = focus(rest) else {
            return false;
        };
        Body::Focus(focus)
    };
    *says = StreamLine::Message(Message { seq, moment, body });
    true
}

/// Reads a message with this number and time, and returns whether it is one.
#[inline(always)]
#[tactic(auto, unfolding(crate::specs::MessageLine::body_of))]
fn body(seq: u64, moment: Moment, bytes: &[u8], says: &mut StreamLine) -> bool
    ensures { cond result (Some says.new) None ≡ line_that_says seq moment (body_of bytes.now) }
{
    match past("motion ", bytes) {
        Some(rest) => motion(seq, moment, rest, says),
        None => other_body(seq, moment, bytes, says),
    }
}

/// Reads the message that a line without its newline spells, and returns whether it spells one.
#[inline(always)]
#[tactic(auto, unfolding(crate::specs::MessageLine::message_of))]
pub(crate) fn message(bytes: &[u8], says: &mut StreamLine) -> bool
    ensures { cond result (Some says.new) None ≡ line_that_sends (message_of bytes.now) }
{
    let Some((seq, rest)) = number(u64::MAX, bytes) else {
        return false;
    };
    let Some((moment, rest)) = labeled(" ", Moment::MAX_US, rest) else {
        return false;
    };
    let Some(rest) = past(" ", rest) else {
        return false;
    };
    let Some(moment) = Moment::new(moment) else {
        return false;
    };
    body(seq, moment, rest, says)
}
