//! Which window has the focus of each display, and to which of them keys go.
//!
//! The window last requested for a display has its focus, if it may have it there. Keys go to the focused window of the
//! display of the last request that took them along, as each does here. Channel 2 is requested on display 0 while the
//! windows of channels 1 and 2 are there, and then channel 3 on display 1. Then the window of channel 2 goes away and
//! comes back:
//!
//! ```text
//! windows [0b011, 0b100, 0, 0]      nobody is focused
//! request 0 Some(2)                 gained: 2          keys go to 2
//! request 1 Some(3)                 gained: 3          keys go to 3
//! windows [0b001, 0b100, 0, 0]      lost: 2            keys go to 3
//! windows [0b011, 0b100, 0, 0]      gained: 2          keys go to 3
//! ```
//!
//! A request stays, so a window is focused again when it comes back.
#![tactic(auto)]

mod resolver;

pub use resolver::{Change, Focus, Focusable};
