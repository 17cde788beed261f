//! What a run must do.
use dispatch_calls::{Call, Terms};
use input_types::{Displays, Moment};

/// A channel of a run.
#[derive(Clone, Copy, Debug, PartialEq, Eq)]
pub struct Channel {
    /// What it is opened with.
    pub terms: Terms,
    /// Whether its owner finishes messages.
    pub finishes: bool,
    /// How long after receiving a message its owner finishes it, in microseconds, at most 10^15.
    pub finish_after: u64,
}

/// A step of a script: a call that sets the windows, requests the focus, pilfers or removes a channel, with its time.
#[derive(Drop)]
pub struct Step {
    pub lane: u8,
    pub call: Call,
}

/// What a run must do besides handing in the args that come to it.
#[derive(Drop)]
pub struct Plan {
    /// The display of each device.
    pub displays: Displays,
    /// Sorted by their numbers, at most 64.
    pub channels: Vec<Channel>,
    /// Sorted by rising time.
    pub steps: Vec<Step>,
    /// The time at which the run ends, unless a step or some args come later.
    pub until: Moment,
}
