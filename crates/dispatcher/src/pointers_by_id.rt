//! The pointers of a motion, found by their ids.
//!
//! A Move lists pointers 0, 1 and 3, and a window holds {1, 3}. [`PointersById`] is made once for the motion, for all
//! windows. What this window is sent is found by walking over the ids that it holds:
//!
//! ```text
//! the motion   0@100,200 1@700,400 3@50,60
//! ids          {0, 1, 3}
//! its part     1@700,400 3@50,60
//! ```
mod by_id;

pub use by_id::{PointersById, ids_of};
