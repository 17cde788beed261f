//! The lines that `getevent -t` prints, read as raw events of the Linux kernel.
//!
//! The line
//!
//! ```text
//! [   12345.100000] /dev/input/event2: 0003 0035 0000021c
//! ```
//!
//! says that the device at `/dev/input/event2` sent an event of type 3 (EV_ABS) and code 0x35 (ABS_MT_POSITION_X) with
//! the value 540 at 12,345,100,000 microseconds. A `LineReader` is fed a recording in pieces of any length, and gives
//! the events of the devices of a session up to the first line that it refuses. Cut behind `[   12345.10` and fed in
//! two pieces, the line above gives its event with the second piece.
//!
//! Successive lines usually have the same seconds and path, and write their numbers alike. Such a line is read by its
//! front, which the line before left. The events are the same either way.
#![tactic(auto)]

pub mod codes;
mod digits;
mod event;
mod front;
mod line;
mod micros;
mod piece;
mod reader;
mod recording;
mod same;
mod text;
mod usual;

pub use event::{LineError, RawEvent};
pub use reader::LineReader;
pub use recording::{events_of, read_pieces};
