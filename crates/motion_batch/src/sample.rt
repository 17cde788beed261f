//! One move of a batch.
use input_types::{Moment, Pointers};

/// A move of a device: the number and the time of its message, and where the pointers were.
#[derive(Clone, Copy, Debug, PartialEq, Eq)]
pub struct Sample {
    pub seq: u64,
    pub moment: Moment,
    pub pointers: Pointers,
}
