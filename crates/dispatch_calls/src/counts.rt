//! The counts of a channel, and the record of a timeout.
use input_types::Moment;

/// How far a channel has come.
#[derive(Clone, Copy, Debug, PartialEq, Eq)]
pub struct Counts {
    /// How many messages its stream contains.
    pub sent: u64,
    /// How many its owner has received.
    pub received: u64,
    /// How many its owner has finished.
    pub finished: u64,
    /// How many its owner could have received by now.
    pub published: u64,
    /// Whether it is open: opened and not removed.
    pub live: bool,
}

/// An ANR: a window was reported unresponsive.
#[derive(Clone, Copy, Debug, PartialEq, Eq)]
pub struct Anr {
    /// The clock at the tick that reported it.
    pub clock: Moment,
    pub channel: u32,
    /// Its oldest published message that was not finished then.
    pub seq: u64,
}
