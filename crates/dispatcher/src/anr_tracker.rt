//! When each channel is due to be reported unresponsive, and which one is due first.
//!
//! A channel is due when its oldest delivered and unfinished message has waited for the channel's limit. Channels 2
//! and 3 are due:
//!
//! ```text
//! set 3 at 6000000       first: 6000000, channel 3
//! set 2 at 6000000       first: 6000000, channel 2
//! set 2 at 7500000       first: 6000000, channel 3
//! clear 3                first: 7500000, channel 2
//! clear 2                nobody is due
//! ```
//!
//! At equal times the lowest channel comes first. The map is a fixed table, with a mask of the channels that have a due
//! time and a time before which none is due. It searches only when the first one is asked for, and only over those
//! channels. The search usually stops at the first of them, since channels that were sent something by one step are due
//! at one time.
mod tracker;

pub use tracker::Tracker;
