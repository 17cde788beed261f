//! What the rules see before a motion of a device.
use route_split::Touches;
use window_snapshot::{Reach, Snapshot};

/// What the rules see before a motion of a device.
#[derive(Clone, Copy)]
pub struct Sight<'a> {
    /// Who holds which pointers, since when, and who is pilfering which device.
    pub touches: &'a Touches,
    pub windows: &'a Snapshot,
    /// The windows that the device can reach.
    pub reach: Reach,
    /// The mask of the channels that are able to take input.
    pub able: u64,
}
