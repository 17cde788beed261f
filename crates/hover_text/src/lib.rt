//! The text of what the windows of display 0 are sent for a mouse.
//!
//! On a display of 1080 by 2400, the window `left` is from (0, 0) to (540, 2400) and `right` from (540, 0) to (1080,
//! 2400). A mouse moves 40 to the left at 1000, 100 to the right at 2000 and 5000 up at 3000 microseconds, and from
//! 4000 on only `left` is shown:
//!
//! ```text
//! channel 1 left
//! 1000 HOVER_ENTER 500,1200
//! 2000 HOVER_EXIT 500,1200
//! end 1 2
//! channel 2 right
//! 2000 HOVER_ENTER 60,1200
//! 3000 HOVER_MOVE 60,0
//! 4000 HOVER_EXIT 60,0
//! end 2 3
//! ```
//!
//! Steps of the session that show windows or remove a channel come before motions of the same time ([`laws`]); its
//! other steps and its devices are ignored.
#![tactic(auto)]

mod hover;
pub mod laws;
mod screen;
mod steps;
mod text;

pub use hover::Hover;
