//! One history for all threads that share a machine.
//!
//! A machine answers calls one after another, and its history has each answered call with its reply, newest first.
//! Threads call it through a turnstile, which lets one of them in at a time. Each thread has its own seat, with its
//! own number. Three calls by two seats on a counting machine:
//!
//! ```text
//! new                          seat 0, which has seen nothing
//! seat 0 calls Add(5)          place 0, reply 5      history: (0, Add(5), 5)
//! seat 0 calls Add(2)          place 1, reply 7      history: (0, Add(2), 7) (0, Add(5), 5)
//! seat 0 splits off seat 1     which has seen 2 entries, as seat 0 has
//! seat 1 calls Add(1)          place 2, reply 8      history: (1, Add(1), 8) (0, Add(2), 7) (0, Add(5), 5)
//! seat 0 looks                 3
//! ```
//!
//! A seat sees one history: each later one begins with everything that the seat had seen, and the seat's own calls are
//! exactly those that have its number there.
#![tactic(auto)]

mod calls;
mod machine;
mod rule;
mod turnstile;
mod view;

pub use crate::turnstile::{Seat, Turnstile};
pub use machine::{Machine, Placed, TryRefused};
pub use view::{Record, View};
