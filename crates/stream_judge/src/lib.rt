//! Whether the messages of a stream file are allowed in their order.
//!
//! A stream file is judged in two steps: each line must follow the grammar, and each message must be one that its
//! window may be sent after those before it in its section. In
//!
//! ```text
//! channel 1 main
//! 1 2000 motion 1 DOWN 0@110,200
//! 2 4000 motion 1 DOWN 0@110,200
//! end 1 sent 2 received 2 finished 2
//! ```
//!
//! the message of line 3 is not allowed, since the finger is down already. A line that does not follow the grammar
//! takes precedence, wherever it is.
//!
//! `Judge` goes through the messages of one section, and `refusal` says why a file is refused once a message that is
//! not allowed was found.
#![tactic(auto)]

mod error;
mod judge;
mod rest;

pub use error::FileError;
pub use judge::Judge;
pub use rest::refusal;
