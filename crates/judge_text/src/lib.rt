//! Whether each section of a stream file is whole, and if not, why.
//!
//! A section is whole if each of its messages is allowed after those before it, and no pointer and no key is down at
//! its end. A window that is sent a whole stream has seen the end of everything that began. In
//!
//! ```text
//! channel 1 main
//! 1 2000 motion 1 DOWN 0@110,200
//! 2 4000 motion 1 MOVE 0@112,200
//! end 1 sent 2 received 2 finished 2
//! ```
//!
//! each message is allowed, but pointer 0 of device 1 is down at the end: the file is refused by `stream: StillDown 4
//! 1:0`. With a further message `3 5000 motion 1 UP 0@112,200` it is whole, and the text is
//!
//! ```text
//! channel 1 whole 3
//! judged 1 3
//! ```
//!
//! A message that is not allowed is reported with the reason that the rule for streams has: `stream: Broken 3
//! AlreadyDown` if line 3 is a second `DOWN`. A file is read line by line, and no message of it is kept.
#![tactic(auto)]

mod down;
mod error;
mod judge;
mod laws;
mod reason;
mod text;

pub use down::{HeldIds, StillDown};
pub use error::JudgeError;
pub use laws::{keys, reasons, same_break};
pub use reason::word;
pub use text::judge_text;
