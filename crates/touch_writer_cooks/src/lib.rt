//! Cooking gives back what a writer of packets was asked to write.
//!
//! A writer is asked for contact 0 at (100, 200), then for contacts 0 and 1, then for contact 1 alone:
//!
//! ```text
//! 0@100,200            TRACKING_ID 0, POSITION_X 100, POSITION_Y 200, SYN_REPORT
//! 0@100,200 1@300,400  SLOT 1, TRACKING_ID 1, POSITION_X 300, POSITION_Y 400, SYN_REPORT
//! 1@300,400            SLOT 0, TRACKING_ID -1, SYN_REPORT
//! ```
//!
//! `Slots` reads these events as two slots, and `Ids` gives the contacts at the end of each packet their ids. The
//! pointers are 0@100,200 first, then 0@100,200 and 1@300,400, and then 1@300,400: those that were asked for. [`laws`]
//! says that this holds for each list of packets that a writer does not refuse, and that a reader of recordings gets
//! exactly these events from the lines.
#![tactic(auto)]

pub mod laws;
