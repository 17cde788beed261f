//! The args that devices hand in, before the dispatcher dispatches them: which of them may come, by what is down on
//! their device, and those that wait, in the order in which they came.
//!
//! [`DevicesDown`] keeps what is down on each of eight devices: pointers by their ids, and keys by their scan codes.
//! Pointer 0 is down on device 1, and its volume up key, scan code 115. Args are planned first, and applied then:
//!
//! ```text
//! POINTER_DOWN:1 0, 1    Pointers {0, 1}
//! key 115 down           refused: pointers {0} are down, and the key is
//! DOWN 0                 refused: pointers {0} are down
//! reset                  Nothing is down
//! ```
//!
//! [`DevicesDown::plan`] returns what args change, or, if the rule of devices does not allow them, what is down; it
//! changes nothing. [`DevicesDown::apply`] makes the change. [`DevicesDown::first_key`] reports the keys that are down,
//! one by one. None of them takes memory: each device has a bit for each scan code from the start.
//!
//! Args that came wait in an [`Inbound`]. A finger goes down, moves and goes up before the dispatcher looks:
//!
//! ```text
//! reserve 2              room for 2
//! put DOWN               1 waits, room for 1
//! put MOVE               2 wait
//! first                  DOWN, which stays
//! pop                    DOWN
//! ```
//!
//! Room is reserved first and used then, so a caller that changes several things at once can take all memory before the
//! first change. The room of removed args is used again: a queue that never holds more than it once did takes no
//! further memory.
mod change;
mod device;
mod devices;
mod keys;
pub mod laws;
mod queue;

pub use change::{Becomes, Change, Inconsistent};
pub use devices::{DevicesDown, device_of};
pub use queue::Inbound;
