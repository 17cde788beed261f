//! Who holds what of eight touch devices, in tables of bits, by the routing rules.
//!
//! Two windows stand side by side, 1 on the left and 2 on the right. A finger, pointer 0 of device 1, is down on the
//! left one, and a second one goes down on the right one:
//!
//! ```text
//! mark      Give { device: 1, id: 1, windows: {2} }
//! sends     1: MOVE 0@100,200     2: DOWN 1@700,400
//! after it  1 holds {0}, 2 holds {1}
//! ```
//!
//! [`Touches::mark_of`] finds what a motion gives and takes; [`Mark`] itself has the marks of all other steps.
//! [`Touches::concerned`] says which windows can be sent anything at the step. [`Touches::change`] changes the tables
//! by the mark, and returns what each window lost if one pilfers. Then [`Touches::sends`] says what a window is sent
//! for a motion, by what it held before and holds now. None of these allocates memory or fails.
//!
//! The tables stand for a scene of the rules (`Stands` of specs/Tables), and for the marks of all steps so far
//! (`Follows` of specs/Following): each mark that changes them adds one.
#![tactic(auto)]

mod choice;
mod concern;
mod holding;
pub mod laws;
mod mark;
mod marking;
mod motion;
mod seen;
mod sending;
mod sends;
mod sets;
mod slip;
mod touches;
mod watching;

pub use concern::given_windows;
pub use mark::Mark;
pub use sends::Sends;
pub use slip::Way;
pub use touches::Touches;
pub use watching::watchers;
