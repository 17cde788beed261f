//! The dispatcher with its history, and as a machine that threads share.
//!
//! Window 1 is on the display, and a finger goes down on it. These calls of seat 0 are kept with their replies, in this
//! order:
//!
//! ```text
//! 0  Open { terms }                                                Opened(1)
//! 0  Windows { now: 0, snapshot: [1 at [0, 0, 1080, 2400]] }       Done
//! 0  Notify { now: 1000, args: Motion(1 Down 0@540,1200) }         Taken
//! 0  Pump { now: 1000 }                                            Dispatched
//! 0  Receive { channel: 1 }                                        Got(1 1000 Motion(1 Down 0@540,1200))
//! 0  Finish { now: 2000, channel: 1, seq: 1 }                      Done
//! ```
//!
//! A [`Core`] is a `Dispatcher` with the list of these entries. It releases no message, so its `stream` of channel 1 is
//! the whole one. All its replies, and everything that can be read from it, follow from the entries (specs/Recorded):
//! the last reply is the one that the entries before it require, and no rule reads who made a call. Room for entries,
//! and for what pumps send, can be reserved; then some calls cannot run out of memory.
//!
//! As a machine of the turnstile its history is the same list (specs/Machine).
#![tactic(auto)]

mod machine;
mod record;

pub use record::Core;
