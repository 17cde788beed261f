//! One line of an order.
ghost use Rattle.std.specs.Prelude.{◌≡◌, ◌++◌, IfOk, IfSome, ◌≤◌, ◌-◌};
ghost use Rattle.stream_text.specs.Order.{HasLane, finish_line, number_alone, line_spelling, order_line_of, receive_line, script_line};
ghost use Rattle.stream_text.specs.OrderText.{head_of};

use crate::reading::number::{number, past};
use std::alloc::AllocError;
use text_lines::{add_labeled, add_word};

/// A call, as an order names it.
#[derive(Clone, Copy, Debug, PartialEq, Eq)]
pub enum OrderLine {
    /// The reader hands in its next args.
    Reader,
    /// The next step of a script lane is made. Lanes have the numbers 1 to 8.
    Script { lane: u8 },
    /// The dispatcher takes what waits.
    Pump,
    /// The dispatcher looks for windows that do not answer.
    Tick,
    /// The owner of a channel takes its next message.
    Receive { channel: u32 },
    /// The owner of a channel is done with a message.
    Finish { channel: u32, seq: u64 },
}

/// Adds a line without its newline.
pub(crate) fn add_order_line(text: &mut Vec<u8>, line: &OrderLine) -> Result<(), AllocError>
    ensures { IfOk result (λ _. text.new.items ≡ text.old.items ++ line_spelling line.now) }
{
    match line {
        OrderLine::Reader => add_word(text, "r"),
        OrderLine::Script { lane } => add_labeled(text, "s ", u64::from(*lane)),
        OrderLine::Pump => add_word(text, "p"),
        OrderLine::Tick => add_word(text, "k"),
        OrderLine::Receive { channel } => add_labeled(text, "g ", u64::from(*channel)),
        OrderLine::Finish { channel, seq } => {
            add_labeled(text, "f ", u64::from(*channel))?;
            add_labeled(text, " ", *seq)
        }
    }
}

/// A number of at most `max` with nothing behind it.
#[tactic(auto, unfolding(crate::specs::Order::number_alone))]
fn number_alone(max: u64, bytes: &[u8]) -> Option<u64>
    ensures value { result ≡ number_alone max bytes.now }
    ensures range { IfSome result (λ n. n ≤ max) }
{
    match number(max, bytes)? {
        (n, []) => Some(n),
        _ => None,
    }
}

#[tactic(auto, unfolding(crate::specs::Order::script_line))]
fn script(bytes: &[u8]) -> Option<OrderLine>
    ensures value { result ≡ script_line bytes.now }
    ensures lane { IfSome result HasLane }
{
    let lane = number_alone(8, bytes)?;
    if lane == 0 {
        return None;
    }
    Some(OrderLine::Script { lane: lane as u8 })
}

#[tactic(auto, unfolding(crate::specs::Order::receive_line))]
fn receive(bytes: &[u8]) -> Option<OrderLine>
    ensures value { result ≡ receive_line bytes.now }
    ensures lane { IfSome result HasLane }
{
    let channel = number_alone(u64::from(u32::MAX), bytes)?;
    Some(OrderLine::Receive {
        channel: channel as u32,
    })
}

#[tactic(auto, unfolding(crate::specs::Order::finish_line))]
fn finish(bytes: &[u8]) -> Option<OrderLine>
    ensures value { result ≡ finish_line bytes.now }
    ensures lane { IfSome result HasLane }
{
    let (channel, rest) = number(u64::from(u32::MAX), bytes)?;
    let seq = number_alone(u64::MAX, past(" ", rest)?)?;
    Some(OrderLine::Finish {
        channel: channel as u32,
        seq,
    })
}

/// How many lines follow the first line of an order, given without its newline; None exactly if the line does not have
/// that form.
#[tactic(auto, unfolding(crate::specs::OrderText::head_of))]
pub(crate) fn read_head(line: &[u8]) -> Option<u64>
    ensures { result ≡ head_of line.now }
{
    number_alone(u64::MAX, past("order ", line)?)
}

/// What a line says, given without its newline; None exactly if it does not have the form of an order's line.
pub(crate) fn order_line(line: &[u8]) -> Option<OrderLine>
    ensures value { result ≡ order_line_of line.now }
    ensures lane { IfSome result HasLane }
{
    match line {
        [b'r'] => Some(OrderLine::Reader),
        [b'p'] => Some(OrderLine::Pump),
        [b'k'] => Some(OrderLine::Tick),
        [b's', b' ', rest @ ..] => script(rest),
        [b'g', b' ', rest @ ..] => receive(rest),
        [b'f', b' ', rest @ ..] => finish(rest),
        _ => None,
    }
}
