//! What is on the displays: the windows, front to back, and which of them a point touches.
//!
//! A snapshot lists the windows, the front one first. A point touches the first window that takes touches there; the
//! spies in front of it see the touch too, and the watchers in front of it are sent a touch outside of them. Say that
//! channel 1 has a spy from (0, 0) to (1080, 1200), in front of a window of channel 2 over the whole display. The point
//! (100, 100) touches channel 2 and has the spies {1}, and the point (100, 2000) touches channel 2 and has none.
//!
//! Each window is on one display, and positions are pixels of it. A call for a point of one display takes the channels
//! that are live there, with the display ([`Reach`]). A mask is a set of channels: bit `id - 1` stands for the channel
//! `id`, for ids 1 to 64.
//!
//! A window may be of nobody. Such a wall has the number [`wall_on`] of its display in place of a channel. A point
//! touches it as it touches any window, so it keeps touches from the windows behind it, and nobody is given what it
//! takes. A window with any other number outside 1 to 64 is never touched.
#![tactic(auto)]

mod blockers;
mod flags;
mod hits;
mod mask;
mod occluded;
mod occlusion;
mod reach;
mod snapshot;
mod window;

pub use flags::WindowFlags;
pub use mask::{is_channel, mask_first, mask_has, mask_less, mask_with, mask_without};
pub use occlusion::{Occlusion, Percent};
pub use reach::{Reach, wall_on};
pub use snapshot::{MAX_WINDOWS, Snapshot, SnapshotError};
pub use window::Window;
