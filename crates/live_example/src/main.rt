//! The main loop of a program that sends its fingers through the live service, as a window manager does.
//!
//! A table of events stands in for the kernel, and two clients side by side for real ones. The left one finishes each
//! message at once. The right one never does, so it is reported after five seconds, and the finger that it holds is
//! cancelled.
#![tactic(auto)]

mod events;
mod start;

ghost use Rattle.std.specs.Prelude.{◌≤◌};

use crate::events::EVENTS;
use crate::start::Started;
use input_types::{Message, Moment};
use live_input::Client;
use std::alloc::{AllocError, Global};
use std::io;
use std::io::Write;
use stream_text::message_text;

/// A line about a channel.
fn say(alloc: Global, channel: u32, text: &str, out: &mut Vec<u8>) -> Result<(), AllocError> {
    out.extend_from_slice(format!(in alloc; "channel {channel}: {text}")?.as_bytes())
}

/// Whether a mask has a channel.
fn has(mask: u64, channel: u32) -> bool
    requires { (1 ≤ channel) × (channel ≤ 64) }
{
    mask >> (channel - 1) & 1 == 1
}

/// Prints a message for the client of a channel. Returns its number.
fn print_message(
    alloc: Global,
    channel: u32,
    message: &Message,
    out: &mut Vec<u8>,
) -> Result<Option<u64>, AllocError> {
    let seq = message.seq;
    say(alloc, channel, "", out)?;
    message_text(message, out)?;
    Ok(Some(seq))
}

/// Prints the next message of a client. Returns its number, if there is one.
fn send_next(
    started: &mut Started,
    client: Client,
    out: &mut Vec<u8>,
) -> Result<Option<u64>, AllocError> {
    match started.live.next(client) {
        Ok(Some(message)) => print_message(started.alloc, client.channel(), &message, out),
        Ok(None) => Ok(None),
        Err(error) => Err(error),
    }
}

/// A client receives all its messages and finishes each, unless it is the one that never does.
fn send_to(
    started: &mut Started,
    now: Moment,
    client: Client,
    out: &mut Vec<u8>,
) -> Result<(), AllocError> {
    for _ in 0..u64::MAX {
        let Some(seq) = send_next(started, client, out)? else {
            return Ok(());
        };
        if client != started.idle && started.live.finish(now, client, seq).is_err() {
            return Err(AllocError);
        }
    }
    Ok(())
}

/// Hands each client its new messages.
fn send(started: &mut Started, now: Moment, out: &mut Vec<u8>) -> Result<(), AllocError> {
    let waiting = started.live.waiting();
    for channel in 1..=64u32 {
        if has(waiting, channel) {
            if let Some(client) = started.live.client_at(channel) {
                send_to(started, now, client, out)?;
            }
        }
    }
    Ok(())
}

/// Advances the clock to a time, runs everything that is due, and prints which clients do not respond.
fn advance(started: &mut Started, now: Moment, out: &mut Vec<u8>) -> Result<(), AllocError> {
    let late = started.live.advance(now)?;
    for channel in 1..=64u32 {
        if has(late, channel) {
            say(started.alloc, channel, "does not respond\n", out)?;
        }
    }
    send(started, now, out)
}

/// Takes an event of the panel.
fn take(
    started: &mut Started,
    event: (u64, u16, u16, i32),
    out: &mut Vec<u8>,
) -> Result<(), AllocError> {
    let (at, kind, code, value) = event;
    let Some(now) = Moment::new(at) else {
        return Ok(());
    };
    // First runs what was due before the event.
    advance(started, now, out)?;
    match started.live.event(now, started.panel, kind, code, value) {
        Ok(()) => send(started, now, out),
        Err(_) => Err(AllocError),
    }
}

/// Takes all events, and then runs what is due in the seconds after them.
fn run(started: &mut Started, out: &mut Vec<u8>) -> Result<(), AllocError> {
    for event in EVENTS {
        take(started, *event, out)?;
    }
    match started.live.due() {
        Some(due) => match Moment::new(due) {
            Some(now) => advance(started, now, out),
            None => Ok(()),
        },
        None => Ok(()),
    }
}

fn main(rt: HostRuntime) -> io::Result<()> {
    let alloc = rt.alloc();
    let mut out = Vec::new(alloc);
    if let Some(mut started) = start::start(alloc) {
        run(&mut started, &mut out)?;
    }
    rt.stdout().write_all(&out)
}
