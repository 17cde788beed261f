//! The program: makes the real files and streams, hands the words to the top call, and ends with its status.
#![tactic(auto)]

mod streams;
mod words;

use outside_io::{HostFiles, HostSink};
use replay_engine::NoGate;
use std::cell::Cell;
use std::process::ExitCode;
use streams::{Errors, Output};
use words::words;

fn main(rt: HostRuntime) -> ExitCode {
    let alloc = rt.alloc();
    let gone = Cell::new(false);
    let mut out = HostSink::new(Output::new(rt.stdout(), &gone));
    let mut err = HostSink::new(Errors::new(rt.stderr(), &gone));
    let Ok(words) = words(&rt, alloc) else {
        return ExitCode::from(replay_engine::no_memory(&mut err));
    };
    let mut files = HostFiles::new(&rt);
    let status = if replay_engine::is_alone(&words) {
        replay_engine::run_alone(alloc, &words, &mut files, &mut out, &mut err)
    } else {
        replay_engine::run(&rt, alloc, &words, &mut files, &mut out, &mut err, &NoGate)
    };
    ExitCode::from(status)
}
