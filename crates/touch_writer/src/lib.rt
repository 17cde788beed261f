//! Writes what fingers do as a recording of the kernel's multi-touch protocol B, with as few events as possible.
//!
//! Two fingers go down, one after the other, and leave:
//!
//! ```text
//! 1000  0@100,200            TRACKING_ID 0, POSITION_X 100, POSITION_Y 200, SYN_REPORT
//! 1000  0@100,200 1@300,400  SLOT 1, TRACKING_ID 1, POSITION_X 300, POSITION_Y 400, SYN_REPORT
//! 3000  1@300,400            SLOT 0, TRACKING_ID -1, SYN_REPORT
//! 4000  none                 SLOT 1, TRACKING_ID -1, SYN_REPORT
//! ```
//!
//! Events are written without ABS_MT_ here. The current slot needs no ABS_MT_SLOT, a slot keeps its position when its
//! contact leaves, and a new contact in the slot of one that leaves ends that one. So the slots of new contacts decide
//! how many events a packet has, and a `Writer` finds the best ones. `event_text` writes an event as `getevent -t`
//! prints it.
#![tactic(auto)]

mod assignable;
mod error;
mod line;
mod packet;
mod place;
mod table;
mod want;
mod writer;

pub use error::WriteError;
pub use line::{EventWriter, event_text};
pub use want::Want;
pub use writer::Writer;
