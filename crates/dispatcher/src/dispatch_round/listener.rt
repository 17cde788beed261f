//! The window that is sent something.
use crate::window_covers::Covers;
use input_types::{Moment, Pixel};

/// A window that is sent something at a clock, with its origin, and what lies over the windows.
#[derive(Clone, Copy)]
pub(crate) struct Listener<'a> {
    pub(crate) window: u32,
    pub(crate) origin: Pixel,
    pub(crate) clock: Moment,
    pub(crate) covers: &'a Covers,
}
