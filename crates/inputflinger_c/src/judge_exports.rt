//! The calls of a judge.
ghost use Rattle.inputflinger_c.specs.Judging.{JudgeOpens, Frees, Steps, StepGoes};
ghost use Rattle.std.specs.Prelude.{nat_eq};
ghost use Rattle.inputflinger_c.specs.Keys.{KeysGo, KeysSent};
ghost use Rattle.plain_calls.specs.Status.{no_memory};
ghost use Rattle.plain_calls.specs.Plain.{message_of};
ghost use Rattle.inputflinger_c.specs.States.{StateGoes};

use crate::fault::{PlainFault, plain_fault};
use crate::judge::Judge;
use crate::judge_keys::{PlainKey, write_keys};
use crate::judge_state::{PlainState, state_of};
use gesture_verifier::{StepError, Verifier};
use input_types::Message;
use plain_calls::PlainMessage;
use plain_calls::status::{BROKEN, FREE, MEMORY, OK, RANGE, ROOM, TAKEN};
use std::alloc::Global;

/// Puts a judge of a stream without messages into a free handle. `TAKEN` if the handle is not free, and `MEMORY` if
/// memory runs out; the handle then stays as it was.
#[unsafe(no_mangle)]
pub extern "C" fn inputflinger_proved_judge_new(alloc: Global, judge: &mut Judge) -> u32
    ensures { JudgeOpens judge.old.cell.told result judge.new.cell.told }
{
    if judge.is_open() {
        return TAKEN;
    }
    match Box::new(alloc, Verifier::new(alloc)) {
        Ok(made) => {
            judge.put(made);
            OK
        }
        Err(_) => MEMORY,
    }
}

/// Frees a handle and the memory of its judge. `FREE` if it was free before.
#[unsafe(no_mangle)]
pub extern "C" fn inputflinger_proved_judge_free(alloc: Global, judge: &mut Judge) -> u32
    ensures { Frees judge.old.cell.told result judge.new.cell.told }
{
    match judge.take(alloc) {
        Some(_) => OK,
        None => FREE,
    }
}

/// Accepts the next message of the stream, or reports why it is not allowed.
///
/// `FREE` if the handle is free, `RANGE` if a number of the message is out of its range, `MEMORY` if memory runs out at
/// a key message, and `BROKEN` exactly if the stream with this message is not well-formed. Only `BROKEN` writes
/// `fault`, and only `OK` changes the judge.
#[unsafe(no_mangle)]
pub extern "C" fn inputflinger_proved_judge_step(
    alloc: Global,
    judge: &mut Judge,
    message: &PlainMessage,
    fault: &mut PlainFault,
) -> u32
    ensures { StepGoes judge.old.cell.told (message_of message.now) result judge.new.cell.told fault.old fault.new }
{
    let Some(mut verifier) = judge.take(alloc) else {
        return FREE;
    };
    let status = match message.read() {
        Some(message) => step(&mut verifier, &message, fault),
        None => RANGE,
    };
    judge.put(verifier);
    status
}

/// One step of a judge.
fn step(verifier: &mut Verifier, message: &Message, fault: &mut PlainFault) -> u32
    ensures { Steps result verifier.old message.now verifier.new fault.old fault.new }
{
    match verifier.step(message) {
        Ok(()) => OK,
        Err(StepError::Memory) => MEMORY,
        Err(StepError::Fault(told)) => {
            *fault = plain_fault(&told);
            BROKEN
        }
    }
}

/// Writes which pointers are down on each device, and whether the window has the focus. `FREE` if the handle is free;
/// `state` then stays as it was.
#[unsafe(no_mangle)]
pub extern "C" fn inputflinger_proved_judge_state(
    alloc: Global,
    judge: &mut Judge,
    state: &mut PlainState,
) -> u32
    ensures { StateGoes judge.old.cell.told result judge.new.cell.told state.old state.new }
{
    let Some(verifier) = judge.take(alloc) else {
        return FREE;
    };
    *state = state_of(&verifier);
    judge.put(verifier);
    OK
}

/// Writes the keys that are down, in rising order of their devices and scan codes, and how many there are.
///
/// `FREE` if the handle is free, and `MEMORY` if memory runs out; then nothing is written. `ROOM` if there are more
/// keys than places: then only `count` is written.
#[unsafe(no_mangle)]
pub extern "C" fn inputflinger_proved_judge_keys(
    alloc: Global,
    judge: &mut Judge,
    places: &mut [PlainKey],
    count: &mut usize,
) -> u32
    ensures { KeysGo judge.old.cell.told result judge.new.cell.told places.old places.new count.old count.new }
{
    let Some(verifier) = judge.take(alloc) else {
        return FREE;
    };
    let status = send_keys(alloc, &verifier, places, count);
    judge.put(verifier);
    status
}

/// Writes the keys that are down in a stream.
fn send_keys(alloc: Global, verifier: &Verifier, places: &mut [PlainKey], count: &mut usize) -> u32
    ensures { KeysSent (nat_eq result no_memory) result verifier.now places.old places.new count.old count.new }
{
    match verifier.keys_down(alloc) {
        Ok(keys) => {
            *count = keys.len();
            if places.len() < keys.len() {
                return ROOM;
            }
            write_keys(places, &keys);
            OK
        }
        Err(_) => MEMORY,
    }
}
