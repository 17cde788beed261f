//! When a held key must be repeated.
//!
//! Volume up goes down at 1,000,000 microseconds and stays down:
//!
//! ```text
//! sent down, repeat 0, at 1000000     due at 1500000
//! sent down, repeat 1, at 1500000     due at 1550000
//! sent up, at 1560000                 nothing is due
//! ```
//!
//! Here the first repeat comes half a second after the down, and each further one a twentieth of a second after the
//! previous one: the defaults of Android's `ViewConfiguration`. A window may have delays of its own, or no repeats.
#![tactic(auto)]

mod delay;
mod delays;
mod repeat;

pub use delay::Delay;
pub use delays::Repeats;
pub use repeat::Repeat;
