//! A recording of what a window was sent for one device's fingers, with as few events as possible.
//!
//! The first section of channel 1 in the stream file
//!
//! ```text
//! channel 1 main
//! 1 1000 motion 1 DOWN 0@100,200
//! 2 4000 motion 1 UP 0@100,200
//! end 1 sent 2 received 2 finished 2
//! ```
//!
//! gives, for device 1, the packets of a finger that comes and goes:
//!
//! ```text
//! [       0.001000] /dev/input/event0: 0003 0039 00000000
//! [       0.001000] /dev/input/event0: 0003 0035 00000064
//! [       0.001000] /dev/input/event0: 0003 0036 000000c8
//! [       0.001000] /dev/input/event0: 0000 0000 00000000
//! [       0.004000] /dev/input/event0: 0003 0039 ffffffff
//! [       0.004000] /dev/input/event0: 0000 0000 00000000
//! ```
//!
//! Each motion of the device is one packet, which leads to what is down after it. The file is read line by line, and
//! only the text and the contents of the slots are kept.
#![tactic(auto)]

mod contacts;
mod emission;
mod error;
mod judged_lines;
pub mod laws;
mod packets;
mod text;

pub use error::EmitError;
pub use text::emit_text;
