//! What is compared, and how closely.

/// The tolerances within which points agree.
#[derive(Clone, Copy, Debug, PartialEq, Eq)]
pub struct Tolerance {
    /// Microseconds.
    pub us: u64,
    /// Pixels on each axis.
    pub pixels: u32,
}

/// Which sections of two files are compared, which of their messages, and how closely.
///
/// If a channel is named for either file, that file's sections of this channel are paired with the other file's in
/// their order, whatever the channels of those. Otherwise each section is paired with one of its own channel.
#[derive(Clone, Copy, Debug, PartialEq, Eq)]
pub struct Comparison {
    pub tolerance: Tolerance,
    /// The channel of the expected sections; None for all of them.
    pub want_channel: Option<u32>,
    /// The channel of the actual sections; None for all of them.
    pub got_channel: Option<u32>,
    /// Whether each move is a point too.
    pub each_move: bool,
}
