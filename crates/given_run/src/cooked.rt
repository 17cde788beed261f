//! Args with their moment.
use input_types::{Args, Moment};

/// Args that were cooked from a recording, with their moment.
#[derive(Clone, Copy, Debug)]
pub struct Cooked {
    pub moment: Moment,
    pub args: Args,
}
