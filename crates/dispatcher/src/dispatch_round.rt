//! Sends the windows of one step of the dispatcher what the rules say.
//!
//! Windows 1 and 2 stand side by side, the corner of window 2 at (500, 0). Pointer 0 of device 1 is down in window 1,
//! and a second finger goes down in window 2:
//!
//! ```text
//! motion     POINTER_DOWN:1 0@100,200 1@700,400
//! mark       Give { device: 1, id: 1, windows: {2} }
//! make_room  in 1 and 2
//! send_all   1: MOVE 0@100,200     2: DOWN 1@200,400
//!            1 and 2 are published
//! ```
//!
//! A step is sent in two parts, so that running out of memory changes nothing but the room that channels have.
//! [`make_room`] takes all memory that the step can need, and looks only at the windows that may be sent something.
//! [`send_all`] takes none and cannot fail: it changes the tables of touches by the mark of the step, and sends these
//! windows their messages. A window is sent its motions first, device by device, then keys, and then whether it lost
//! the focus or has it now. Pointers that are down in its stream and that it no longer holds are cancelled at the last
//! positions that it was sent. If a window pilfers, these are the pointers that each window lost by the pilfer.
//!
//! A [`Round`] says what a step sends. The proofs hold for every scene of the rules that the tables stand for
//! (`IsRound` of specs/DispatchRound/Rounds), and assume nothing about earlier steps.
mod concern;
mod devices;
mod listener;
mod motions;
mod past;
mod room;
mod round;
mod say;
mod send;
mod steady;

pub use concern::listeners;
pub use past::{keep_none, send_past};
pub use room::make_room;
pub use round::Round;
pub use send::send_all;
pub use steady::{make_steady_room, send_steady};
