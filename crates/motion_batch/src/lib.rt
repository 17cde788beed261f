//! Batches successive moves of one device into one motion with history, once a frame, as an application receives them.
//!
//! A finger goes down at 1000, moves at 2000, 3000 and 9000 and goes up at 9500 microseconds; a frame comes at 8000:
//!
//! ```text
//! take DOWN 1000      One DOWN
//! take MOVE 2000
//! take MOVE 3000
//! frame 8000          Batch of the moves at 2000 and 3000
//! take MOVE 9000
//! take UP 9500        Batch of the move at 9000, One UP
//! ```
//!
//! A move waits until a frame at its moment or later, a message of its device that does not continue it, or a full
//! batch of 256 samples. A message continues the moves before it if it is a move of the same pointers. So no move is
//! lost, none is sent twice, and the order within a device never changes: as messages, the items of a device are what
//! was taken of it.
#![tactic(auto)]

mod batcher;
mod item;
mod pending;
mod sample;

pub use batcher::Batcher;
pub use item::{Batch, Item, MOST_SAMPLES};
pub use sample::Sample;
