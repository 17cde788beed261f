//! Reads calls of the dispatcher as a text, and prints the replies.
//!
//! Standard input has one call a line. Each line is printed, followed by its reply:
//!
//! ```text
//! # a finger on a window                         begins anew, without a call
//! open 5000000                                   open 5000000: opened 1
//! windows 0 1 0 0 0 1080 2400 0                  windows 0 1 0 0 0 1080 2400 0: done
//! notify 1000 motion 1 DOWN 0@540,1200           notify 1000 motion 1 DOWN 0@540,1200: taken
//! pump 1000                                      pump 1000: dispatched
//! stream 1                                       stream 1:
//!                                                1 1000 motion 1 DOWN 0@540,1200
//! ```
//!
//! The numbers of a call stand in the order of its fields, the time first. A window is its channel, its display, the
//! four edges of its frame, in which it can also be touched, and its flags as a number. What devices hand in is spelled
//! as a message without its number; `reset` with a time and a device is a reset. `displays` starts over with the
//! displays of the devices 1 to 8.
//!
//! With the words `rounds N` on the command line the program reads nothing, and prints how long N rounds of a gesture
//! take: of one finger over one window, and of ten fingers over five windows and a spy.
#![tactic(auto)]

mod answers;
mod calls;
mod cases;
mod numbers;
mod rounds;

use crate::numbers::number;
use std::alloc::Global;
use std::io::{Read, Write};
use std::{env, io};

/// The number of rounds that the words ask for.
fn rounds_of(words: &[String]) -> Option<u64> {
    match words {
        [name, count] if name.as_str() == "rounds" => number(count.as_bytes()),
        _ => None,
    }
}

/// The words after the program's name.
fn words(rt: &HostRuntime, alloc: Global) -> io::Result<Vec<String>> {
    let mut words = Vec::new(alloc);
    for word in env::args(rt)?.skip(1) {
        words.push(word)?;
    }
    Ok(words)
}

fn main(rt: HostRuntime) -> io::Result<()> {
    let alloc = rt.alloc();
    let words = words(&rt, alloc)?;
    if let Some(count) = rounds_of(&words) {
        return rounds::measure(&rt, alloc, count);
    }
    let mut input = Vec::new(alloc);
    rt.reader().read_to_end(&mut input)?;
    let mut out = Vec::new(alloc);
    cases::run(alloc, &input, &mut out)?;
    rt.stdout().write_all(&out)
}
