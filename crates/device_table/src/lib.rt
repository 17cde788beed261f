//! The devices that are plugged in, each with its reader, as they come and go.
//!
//! A device has a number from 1 to 8, and each number has its display. Say that the numbers 1 and 2 are of display 0,
//! and 3 is of display 1:
//!
//! ```text
//! a panel of display 0 is plugged in     it is device 1, the least number of its display that is free
//! one of display 1                       it is device 3
//! another one of display 0               it is device 2
//! a third one of display 0               refused: no number of display 0 is free
//! device 1 is unplugged                  its reader is gone, and with it all that was known of its fingers
//! one more of display 0                  it is device 1, and begins as if it had had no event
//! ```
//!
//! The reader of a device reads the device's events, and says what each adds for the dispatcher (`args_of` of
//! device_reader).
#![tactic(auto)]

mod table;

pub use table::DeviceTable;
