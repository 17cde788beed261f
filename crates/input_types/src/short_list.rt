//! Lists of at most 16 elements that lie in the value itself: what one device can have at a time, as pointers, contacts
//! and fingers.
//!
//! A list of the ids 3 and 5 is the table 3, 5, 0, 0, .. with two places in use; the others hold the blank element, so
//! equal lists are equal values.
mod blank;
mod list;

pub use blank::Blank;
pub use list::ShortList;
