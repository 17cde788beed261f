//! The channels of a dispatcher: what their windows were sent, who is live and able to take input, and who is due to be
//! reported unresponsive.
//!
//! Two channels are opened with a limit of 5000000. The second is sent a DOWN at 0 and a MOVE at 1000000, with its
//! window at (0, 1200) of the display:
//!
//! ```text
//! open                                 1, live and able
//! open                                 2, live and able
//! send 2 DOWN 0@540,1300 at 0          message 1: DOWN 0@540,100
//! publish {2} at 0                      published; 2 is due at 5000000
//! receive 2                            1: DOWN 0@540,100
//! send 2 MOVE 0@540,1400 at 1000000    message 2: MOVE 0@540,200
//! publish {2} at 1000000                still due at 5000000, by its oldest message
//! late at 5000000                      {2}
//! report {2} at 5000000                2 is not able, and not due; ANR: 5000000, channel 2, message 1
//! finish 2 1 at 5000001                2 is able, and due at 6000000
//! ```
//!
//! With each channel stand the pointers and keys that are still down in its window's stream, in display pixels; cancels
//! are made from these. A table beside the channels, which always agrees with them, finds who is due.
mod channels;
mod due;
mod from_origin;
mod mask;
mod noted;
mod publishing;
mod tracked;

pub use channels::Channels;
pub use mask::{first_of, without};
