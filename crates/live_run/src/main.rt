//! Runs a live service for as long as its input says.
//!
//! Each line of standard input is a run, and prints a line when it is done:
//!
//! ```text
//! visits 2        two clients come and go, one after another, with 10,000 events each
//! one 1000        1,000 rounds of one finger over one window
//! ten 1000        1,000 rounds of ten fingers over five windows, two on each
//! mute 2000       2,000 rounds in which a client is given the focus or loses it, and receives nothing
//! slow 2000       2,000 rounds of one finger, over a client that receives 64 messages every 4.9 seconds
//! ```
//!
//! All visits are to one service, on which one client stays and never finishes a message. Each run of rounds has a
//! service of its own. In a round the panel gives a packet, and each window receives its message and finishes it.
//!
//! The program reads a line only after it answered the one before. So a script that waits for an answer can read how
//! much memory and time the program used up to that run.
#![tactic(auto)]

mod guests;
mod lazy;
mod rounds;
mod service;

use crate::guests::Guests;
use crate::lazy::Lazy;
use std::alloc::{AllocError, Global};
use std::io;

/// The number of a line, after its word.
fn number(text: &str) -> u64 {
    text.parse().unwrap_or(0)
}

/// How many messages some rounds gave, if no call was refused.
fn taken(alloc: Global, word: &str, count: u64) -> Option<u64> {
    match word {
        "one" => rounds::one(alloc, count),
        "ten" => rounds::ten(alloc, count),
        _ => None,
    }
}

/// Runs some rounds, and prints what they gave.
fn rounded(alloc: Global, word: &str, count: u64) -> Result<String, AllocError> {
    match taken(alloc, word, count) {
        Some(taken) => format!(in alloc; "{word} {count}: {taken} messages"),
        None => format!(in alloc; "{word} {count}: refused"),
    }
}

/// What some rounds sent a client that does not receive all of it, if no call was refused.
fn left(alloc: Global, word: &str, count: u64) -> Option<Lazy> {
    match word {
        "mute" => lazy::mute(alloc, count),
        "slow" => lazy::slow(alloc, count),
        _ => None,
    }
}

/// Runs some of these rounds, and prints what they sent.
fn lazed(alloc: Global, word: &str, count: u64) -> Result<String, AllocError> {
    match left(alloc, word, count) {
        Some(told) => {
            let Lazy { sent, named } = told;
            format!(in alloc; "{word} {count}: {sent} messages, {named} named")
        }
        None => format!(in alloc; "{word} {count}: refused"),
    }
}

/// The line that says what all visits up to now gave.
fn outgoing(alloc: Global, guests: &Guests) -> Result<String, AllocError> {
    let events = guests.events();
    format!(in alloc;
        "{} in all, {events} events, {} messages finished, {} never, {} named",
        guests.came, guests.finished, guests.kept, guests.named
    )
}

/// Makes some visits, and returns the line of all visits up to now.
fn visited(alloc: Global, guests: &mut Guests, count: u64) -> Result<String, AllocError> {
    match guests.visits(count) {
        Some(()) => {
            let outgoing = outgoing(alloc, guests)?;
            format!(in alloc; "visits {count}: {}", outgoing.as_str())
        }
        None => format!(in alloc; "visits {count}: refused"),
    }
}

/// Makes a run, and returns its line.
fn answer(alloc: Global, guests: &mut Guests, line: &str) -> Result<String, AllocError> {
    match line.split_once(' ') {
        Some(("visits", count)) => visited(alloc, guests, number(count)),
        Some(("mute", count)) => lazed(alloc, "mute", number(count)),
        Some(("slow", count)) => lazed(alloc, "slow", number(count)),
        Some((word, count)) => rounded(alloc, word, number(count)),
        None => String::from_str(alloc, "not read"),
    }
}

/// Makes all runs, and prints their lines.
fn run(rt: &HostRuntime, guests: &mut Guests) -> io::Result<()> {
    for line in rt.lines(rt.alloc()) {
        let answer = answer(rt.alloc(), guests, line?.as_str())?;
        println!(rt; "{answer}")?;
    }
    Ok(())
}

fn main(rt: HostRuntime) -> io::Result<()> {
    match Guests::new(rt.alloc()) {
        Some(mut guests) => run(&rt, &mut guests),
        None => println!(rt; "refused"),
    }
}
