//! The pointers that are down on one device, as a set of ids, after each of its motions.
//!
//! One table says which motion may come next, both for a device and for a window's stream. A second finger goes down
//! while pointer 0 is down, and then the first one goes up:
//!
//! ```text
//! down    motion                      down after it
//! {0}     POINTER_DOWN:1 0, 1         {0, 1}
//! {0, 1}  POINTER_UP:0 0, 1           {1}
//! {1}     MOVE 0                      None: it has to list what is down
//! ```
//!
//! [`next_held`] is this table: the ids after a motion, or None exactly if the motion is not allowed. [`next_sent`] is
//! the same for what a window is sent, which may have marks.
#![tactic(auto)]

mod held;

pub use held::{ends, is_same, listed, next_held, next_sent, nothing, without};
