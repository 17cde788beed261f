//! What a recording and a session hold, as a text: was the input read as you meant it?
//!
//! A session has a touch device at `/dev/input/event2` and one step, at 2000000. For the recording
//!
//! ```text
//! add device 1: /dev/input/event2
//! [       1.000000] /dev/input/event2: 0003 0039 0000002d
//! [       1.000000] /dev/input/event2: 0003 0035 0000021c
//! [       1.000000] /dev/input/event2: 0003 0036 000004b0
//! [       1.000000] /dev/input/event2: 0000 0000 00000000
//! [       1.500000] /dev/input/event5: 0001 0073 00000001
//! ```
//!
//! the text is
//!
//! ```text
//! lines 6 blank 0 other 1 unknown 1 events 4
//! moments 1000000 1000000
//! device 1 touch events 4 used 4 void 0 drops 0 packets 1 fingers 1 palms 0 clamped 0 strayed 0 args 1
//! path /dev/input/event5 1
//! steps 1 before 0 within 0 after 1
//! hint device 1 still down 0
//! hint steps after
//! ```
//!
//! Each number counts lines, events, steps or args (specs/Inspected). A hint reports what was probably not meant: here
//! that a finger is never lifted, and that a step comes after all events. Other hints are about positions outside their
//! axis, drops, a clock that goes back, and a byte order mark. The counts come from `recording_counts`, which keeps no
//! list.
#![tactic(auto, unfolding(text_lines::specs::Written::labeled))]

mod counted_hints;
mod devices;
mod hints;
pub mod laws;
mod lines;
mod steps;
mod text;

pub use text::inspect_text;
