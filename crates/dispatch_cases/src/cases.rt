//! A text of calls.
use crate::answers::{say, say_counts, say_due, say_moment, say_reply, say_stream};
use crate::calls::{call, channel, device, display, notify, windows};
use crate::numbers::{first_word, numbers};
use dispatch_calls::Call;
use dispatch_core::Core;
use input_types::Displays;
use std::alloc::{AllocError, Global};

/// Devices on these displays, the first device first.
fn displays(numbers: &[u64]) -> Displays {
    let mut displays = Displays::new();
    let mut number: u64 = 1;
    for n in numbers {
        if let (Some(device), Some(display)) = (device(number), display(*n)) {
            displays.set(device, display);
        }
        number = number.saturating_add(1);
    }
    displays
}

/// The call that a line spells.
fn call_of(alloc: Global, line: &[u8], numbers: &[u64]) -> Option<Call> {
    match first_word(line) {
        b"windows" => windows(alloc, numbers),
        b"notify" => notify(alloc, line.split_at_checked(7)?.1),
        word => call(word, numbers),
    }
}

/// The reply to a call. A call that runs out of memory is dropped, and the next ones continue.
fn answer(
    alloc: Global,
    core: &mut Core,
    call: Option<Call>,
    out: &mut Vec<u8>,
) -> Result<(), AllocError> {
    match call {
        Some(call) => match core.apply(0, call) {
            Ok(reply) => say_reply(alloc, &reply, out),
            Err(AllocError) => say(out, "no memory"),
        },
        None => say(out, "not read"),
    }
}

/// What is read of it.
fn send(
    alloc: Global,
    core: &mut Core,
    line: &[u8],
    numbers: &[u64],
    out: &mut Vec<u8>,
) -> Result<(), AllocError> {
    match (first_word(line), numbers) {
        (b"stream", [id]) => match channel(*id) {
            Some(id) => say_stream(core.stream(id), out),
            None => say(out, "not read"),
        },
        (b"counts", [id]) => match channel(*id) {
            Some(id) => say_counts(alloc, core.counts(id), out),
            None => say(out, "not read"),
        },
        (b"clock", []) => say_moment(alloc, Some(core.clock().get()), out),
        (b"entries", []) => say_moment(alloc, Some(core.history().len() as u64), out),
        (b"due", []) => say_due(alloc, core.first_due(), out),
        (b"repeat", []) => say_moment(alloc, core.repeat_due(), out),
        _ => answer(alloc, core, call_of(alloc, line, numbers), out),
    }
}

/// A line and its answer.
fn step(alloc: Global, core: &mut Core, line: &[u8], out: &mut Vec<u8>) -> Result<(), AllocError> {
    let numbers = numbers(alloc, line)?;
    out.extend_from_slice(line)?;
    out.extend_from_slice(b": ")?;
    if first_word(line) == b"displays".as_slice() {
        *core = Core::new(alloc, &displays(&numbers))?;
        return say(out, "begun");
    }
    if let (b"reserve", [n]) = (first_word(line), numbers.as_slice()) {
        return match core.reserve(u32::try_from(*n).unwrap_or(0)) {
            Ok(()) => say(out, "done"),
            Err(AllocError) => say(out, "no memory"),
        };
    }
    send(alloc, core, line, &numbers, out)
}

/// All lines, with their answers.
pub(crate) fn run(alloc: Global, input: &[u8], out: &mut Vec<u8>) -> Result<(), AllocError> {
    let mut core = Core::new(alloc, &Displays::new())?;
    for line in input.split(|b| *b == b'\n') {
        match line {
            [] => {}
            [b'#', ..] => {
                core = Core::new(alloc, &Displays::new())?;
                out.extend_from_slice(line)?;
                out.push(b'\n')?;
            }
            _ => step(alloc, &mut core, line, out)?,
        }
    }
    Ok(())
}
