//! A mouse cursor over the windows of display 0.
//!
//! The cursor starts in the middle of the display. From its first motion on, it hovers over the window to which a
//! touch there would go, and each window is sent messages when the cursor enters, moves and leaves. With the windows
//! `left` from (0, 0) to (540, 2400) and `right` from (540, 0) to (1080, 2400) of a display of 1080 by 2400:
//!
//! ```text
//! 40 to the left       left: Enter 500,1200
//! 100 to the right     left: Exit 500,1200     right: Enter 60,1200
//! 5000 up                                      right: Move 60,0
//! right is not shown                           right: Exit 60,0
//! ```
//!
//! Buttons, wheels and acceleration are not supported. `Cursor` takes the motions, and `MotionReader` reads them from
//! the raw events of a mouse.
#![tactic(auto)]

mod call;
mod corner;
mod cursor;
mod message;
mod motion;
mod note;
mod stream;
mod sums;

pub use call::CursorCall;
pub use cursor::Cursor;
pub use message::{HoverAction, HoverMsg};
pub use motion::MotionReader;
pub use sums::sums_are_whole;
