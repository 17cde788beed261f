//! Whether an actual stream file agrees with an expected one, within tolerances of time and position.
//!
//! Every message is a point except a move that is not canceled, since the next message that lists its pointers shows
//! where they moved. So a device that merges moves agrees with one that does not; but a move is a point too if
//! [`Comparison`] says so. With 20 microseconds and 3 pixels, the stream
//!
//! ```text
//! channel 1 main
//! 1 2000 motion 1 DOWN 0@110,200
//! 2 4000 motion 1 MOVE 0@112,200
//! 3 5000 motion 1 UP 0@112,200
//! end 1 sent 3 received 3 finished 3
//! ```
//!
//! agrees with
//!
//! ```text
//! channel 1 screen
//! 1 2012 motion 1 DOWN 0@110,203
//! 2 5012 motion 1 UP 0@112,203
//! end 1 sent 2 received 0 finished 0
//! ```
//!
//! and the text is `same 1 2 us 12 pixels 3`: one pair of sections, two pairs of points, and the greatest distances of
//! these. With 2 pixels they would differ in a `place 0,3`: the actual pointer is 3 pixels too low. Sections pair by
//! their channels, the first of a channel with the first, the second with the second. If a channel is named for a file,
//! only its sections are looked at, and the first is paired with the first of the other file. No message is kept:
//! `Sections` has a reader for each section, and two readers proceed in step.
#![tactic(auto)]

mod agreement;
mod compare;
mod comparison;
mod difference;
mod error;
mod laws;
mod measure;
mod points;
mod section;
mod sections;

pub use compare::compare_text;
pub use comparison::{Comparison, Tolerance};
pub use difference::Difference;
pub use error::CompareError;
pub use laws::{files_agree, monotone, points_agree, reflexive, symmetric};
pub use sections::Sections;
