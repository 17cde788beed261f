//! What a channel is opened with.
use input_types::Limit;
use key_repeat::Repeats;

/// What a channel is opened with. It never changes.
#[derive(Clone, Copy, Debug, PartialEq, Eq)]
pub struct Terms {
    /// How long its owner may leave a message unfinished.
    pub limit: Limit,
    /// When a key that its window holds is repeated; None if never, as for a client that repeats keys by itself.
    pub repeats: Option<Repeats>,
}
