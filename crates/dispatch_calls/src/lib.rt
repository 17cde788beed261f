//! The calls of the dispatcher, and its replies.
//!
//! A finger goes down on a window. The second of two channels is the window's. These calls, in this order, have these
//! replies:
//!
//! ```text
//! Open { terms }                                                        Opened(1)
//! Open { terms }                                                        Opened(2)
//! Windows { now: 0, snapshot: [2 at [0, 0, 1080, 2400]] }               Done
//! Notify { now: 1000, args: Motion(1 Down 0@540,1200) }                 Taken
//! Pump { now: 1000 }                                                    Dispatched
//! Receive { channel: 2 }                                                Got(1 1000 Motion(1 Down 0@540,1200))
//! Finish { now: 2000, channel: 2, seq: 1 }                              Done
//! ```
//!
//! Each call is one entry of the dispatcher's history, even if it was refused. Times are microseconds, and the
//! dispatcher's clock is the latest time of any call.
#![tactic(auto)]

mod call;
mod counts;
mod reply;
mod terms;

pub use call::{Call, Entry};
pub use counts::{Anr, Counts};
pub use reply::Reply;
pub use terms::Terms;
