//! A motion of a device, cut down to the pointers of one window.
//!
//! Fingers 0 and 1 are down, 0 in one window and 1 in another, and finger 1 lifts:
//!
//! ```text
//! the device says                    POINTER_UP:1 0@100,200 1@700,400
//! the window that holds {0} is sent  MOVE 0@100,200
//! the window that holds {1} is sent  UP 1@700,400
//! ```
//!
//! If finger 1 became a palm, the latter would be sent a `CANCEL`. A window that holds both is sent the motion as it
//! is, and one that holds neither is sent nothing.
//!
//! This crate does not know which window holds what. It proves what the split motion is, and that this is what the
//! routing rules send to a window ([`laws`]).
#![tactic(auto)]

pub mod laws;
mod listed;
mod window;

pub use listed::{about, part, part_but, plain};
pub use window::{is_up, split};
