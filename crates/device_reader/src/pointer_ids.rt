//! Pointer ids: the small numbers by which a window tells the fingers of a gesture apart.
//!
//! A touch device tells contacts apart by tracking ids, which grow without end. A motion has pointer ids from 0 to 31
//! instead, and a new finger gets the least free one. So two contacts with the tracking ids 45 and 46 are pointers 0
//! and 1. If 45 ends and 47 begins in one packet, 47 is pointer 2: an id of the packet before is not given again at
//! once. In the next packet 0 is free.
//!
//! A palm is no pointer. If the finger with tracking id 46 becomes one, pointer 1 is gone and its id is cancelled: what
//! the finger did so far must not be acted on.
mod assigned;
mod ids;
mod moved;
mod named;

pub use assigned::{Assigned, Held};
pub use ids::Ids;
