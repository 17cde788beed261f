//! A core that threads share.
//!
//! A core answers calls one after another. Here threads call one core, each with its own seat. The reply to a call is
//! the one that the history before its place requires:
//!
//! ```text
//! new                                           seat 0, which has seen nothing
//! seat 0 calls Open { terms }                   place 0, reply Opened(1)
//! seat 0 splits off seat 1                      which has seen 1 entry
//! seat 1 calls Tick { now: 0 }                  place 1, reply Named(0)
//! seat 1 calls Open { terms }                   place 2, reply Opened(2)
//! seat 0 looks                                  3
//! ```
//!
//! So a thread that gets a place and a reply knows what the core did up to that place: one history. It begins with
//! everything that the thread's seat had seen, and the seat's own calls are exactly those that have its number there.
#![tactic(auto)]

mod calls;
mod service;

pub use service::{Seat, Service};
