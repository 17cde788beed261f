//! What a step sends.
use crate::window_covers::Gift;
use input_types::{KeyMsg, Motion};
use route_split::Mark;

/// What one step of the dispatcher sends windows. Windows are given by the numbers of their channels, and masks are
/// sets of channels.
#[derive(Clone, Copy)]
pub struct Round<'a> {
    /// What it gives to windows and takes from them.
    pub mark: Mark,
    /// The motion that it dispatches; None if it dispatches none.
    pub motion: Option<&'a Motion>,
    /// What lies over the windows that it gives a pointer; None if it gives none.
    pub gift: Option<Gift>,
    /// The windows that are sent a touch outside of them.
    pub watchers: u64,
    /// The window that is sent keys.
    pub target: u32,
    /// The keys that it is sent, in this order.
    pub keys: &'a [KeyMsg],
    /// The windows that lose the focus.
    pub lost: u64,
    /// The windows that gain it.
    pub gained: u64,
}
