//! A session and the events of its touch device, made from a number: the same number always gives the same.
//!
//! Ten fingers wander over four windows, each a quarter of the display, and a spy over the upper two. Each packet is
//! about one of the fingers: it goes down, moves, or goes up. With the seed 0 the numbers drawn begin with 48271,
//! 182605794 and 1291394886. The first packet is that of finger 48271 mod 10 = 1, which goes down at (182605794 mod
//! 1080, 1291394886 mod 2400) = (474, 486):
//!
//! ```text
//! ABS_MT_SLOT 1   ABS_MT_TRACKING_ID 0   ABS_MT_POSITION_X 474   ABS_MT_POSITION_Y 486   SYN_REPORT 0
//! ```
//!
//! Packets are 8,000 microseconds apart, as those of a screen that is read 125 times a second. The events are made one
//! at a time as they are asked for, so the longest workload takes no more memory than the shortest.
#![tactic(auto)]

mod events;
mod numbers;
mod session;
mod stage;
mod workload;

pub use events::Events;
pub use workload::{MAX_FINGERS, MAX_PACKETS, make};
