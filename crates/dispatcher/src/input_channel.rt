//! The channel of a window: what it was sent, and how far its owner got.
//!
//! A message is enqueued, then published to the owner, received by it and finished. At most 64 are published and not
//! finished. Their owner may finish those that it received in any order. With the clock at 0 and then at 1000000:
//!
//! ```text
//! enqueue DOWN            message 1
//! publish at 0            1 is delivered at 0
//! receive                 1: DOWN
//! enqueue MOVE            message 2
//! publish at 1000000      2 is delivered at 1000000
//! receive                 2: MOVE
//! finish 3                no such message
//! finish 2                the oldest unfinished one is 1, delivered at 0
//! finish 1                every message is finished
//! ```
//!
//! A message is kept until it is released. Of a received message only its number and its delivery are needed then,
//! until it is finished.
mod channel;
mod kept;
mod moves;
mod unfinished;

pub use channel::{Channel, UnknownSeq};
pub use moves::{list_from, place_from};
