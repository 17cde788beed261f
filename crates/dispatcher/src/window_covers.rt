//! What lay over each window when it was given pointers of each device: the marks that go with what it is sent.
//!
//! Window 1 of another owner covers the left top quarter of window 2, and lets touches through. Each line is a step of
//! one device, and what lies over window 2 after it:
//!
//! ```text
//! down 0 at 540,1200     partly                the point is beside window 1
//! down 1 at 100,100      obscured, partly      the point is under it, and what was found before stays
//! move                   obscured, partly
//! up 1, up 0             obscured, partly      the ups have both
//! down 0 at 100,100      obscured              it held nothing, so it begins anew
//! ```
//!
//! The rules are those of routing_rules (specs/Cover and Marks): a step leaves a mark with what lies over each window
//! that it gives a pointer. Here stand two masks for each device; nothing allocates memory. [`laws`] proves that they
//! say what the marks of all steps say.
mod covers;
mod gift;
pub mod laws;

pub use covers::Covers;
pub use gift::{Gift, gift_of};
