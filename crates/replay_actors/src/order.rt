//! The printed order of a history.
ghost use Rattle.std.specs.Prelude.{◌≡◌, ◌≤◌, length, IfOk, IfSome, option_to_list};
ghost use Rattle.stream_text.specs.Order.{HasLane};
ghost use Rattle.stream_text.specs.OrderHistory.{lane_from, made_by, call_lines};
ghost use Rattle.replay_actors.specs.Texts.{lines_of};

use dispatch_calls::{Call, Entry};
use std::alloc::{AllocError, Global};
use stream_text::{Order, OrderLine};

/// The script lane that has a seat, if the first of the seats is that of lane `first`.
fn lane_of(seats: &[u64], seat: u64) -> Option<u8>
    requires { length seats.now ≤ 8 }
    ensures value { result ≡ lane_from 1 seats.now seat }
    ensures range { IfSome result (λ lane. HasLane (OrderLine.Script lane)) }
{
    let mut lane: u8 = 1;
    for s in seats {
        if *s == seat {
            return Some(lane);
        }
        lane += 1;
    }
    None
}

/// The line of a call that no script lane made; None if it is in no order.
fn call_line(call: &Call) -> Option<OrderLine>
    ensures value { option_to_list result ≡ call_lines call.now }
    ensures lane { IfSome result HasLane }
{
    match call {
        Call::Notify { .. } => Some(OrderLine::Reader),
        Call::Pump { .. } => Some(OrderLine::Pump),
        Call::Tick { .. } => Some(OrderLine::Tick),
        Call::Receive { channel } => Some(OrderLine::Receive { channel: *channel }),
        Call::Finish { channel, seq, .. } => Some(OrderLine::Finish {
            channel: *channel,
            seq: *seq,
        }),
        _ => None,
    }
}

/// The line of a call of this lane, if one made it.
fn line(lane: Option<u8>, call: &Call) -> Option<OrderLine>
    requires { IfSome lane (λ lane. HasLane (OrderLine.Script lane)) }
    ensures value { option_to_list result ≡ made_by lane call.now }
    ensures lane { IfSome result HasLane }
{
    if let Call::Open { .. } = call {
        return None;
    }
    match lane {
        Some(lane) => Some(OrderLine::Script { lane }),
        None => call_line(call),
    }
}

/// The order of calls, oldest first, if the script lanes have these seats, lane 1 the first.
pub(crate) fn order_of(alloc: Global, history: &[Entry], seats: &[u64]) -> Result<Order, AllocError>
    requires { length seats.now ≤ 8 }
    ensures { IfOk result (λ order. order ≡ lines_of seats.now history.now) }
{
    let mut order = Order::new(alloc);
    for entry in history {
        let lane = lane_of(seats, entry.seat);
        if let Some(line) = line(lane, &entry.call) {
            order.push(line)?;
        }
    }
    Ok(order)
}
