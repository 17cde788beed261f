//! What a recording holds, counted in one pass while it comes in pieces.
//!
//! Of the recording
//!
//! ```text
//! add device 1: /dev/input/event2
//! [       1.000000] /dev/input/event2: 0003 0039 0000002d
//! [       1.000000] /dev/input/event2: 0003 0035 0000021c
//! [       1.000000] /dev/input/event2: 0000 0000 00000000
//! [       1.500000] /dev/input/event5: 0001 0073 00000001
//! ```
//!
//! and a session with a touch device at `/dev/input/event2` alone, the first line has another form, the last one has a
//! path that is not in the session, and three lines give events. The device has one packet, with one finger at its end;
//! its reader holds pointer 0, and gives one args for the dispatcher.
//!
//! [`RecordingTally`] reads the pieces and counts what they are: the lines by a [`LineTally`], and the events of all
//! devices by an [`EventTally`], one by one as their readers take them. If the third line ended after `0035`, `feed`
//! would return that line 3 is bad, and count nothing more.
//!
//! No list of lines or events is kept: the counts stand for everything that came, and their memory does not grow with
//! it.
#![tactic(auto)]

mod cut;
mod device;
mod event_tally;
mod events;
mod key_tally;
pub mod laws;
mod line_tally;
mod lines;
mod moments;
mod number;
mod paths;
mod recording_tally;
mod touch;

pub use device::{DeviceTally, TallyKind};
pub use event_tally::EventTally;
pub use events::EventCounts;
pub use key_tally::{KeyCounts, KeysTally};
pub use line_tally::LineTally;
pub use lines::LineCounts;
pub use moments::Span;
pub use paths::UnknownPaths;
pub use recording_tally::RecordingTally;
pub use touch::{TouchCounts, TouchTally};
