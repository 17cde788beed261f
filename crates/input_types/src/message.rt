//! What goes into the dispatcher, and what comes out of it.
use crate::key::{KeyArgs, KeyMsg};
use crate::motion::Motion;
use crate::number::{DeviceId, Moment};

/// What a device reader hands to the dispatcher. Positions are display pixels.
#[derive(Clone, Copy, Debug, PartialEq, Eq)]
pub enum Args {
    Motion(Motion),
    Key(KeyArgs),
    /// The device lost events: everything that was down on it must be forgotten.
    Reset(DeviceId),
}

/// What a window is sent. Positions are pixels relative to the window's own corner.
#[derive(Clone, Copy, Debug, PartialEq, Eq)]
pub enum Body {
    Motion(Motion),
    Key(KeyMsg),
    /// Whether the window now has the focus.
    Focus(bool),
}

/// One message of a channel: its number, counted from 1, the clock when it was sent, and its body.
#[derive(Clone, Copy, Debug, PartialEq, Eq)]
pub struct Message {
    pub seq: u64,
    pub moment: Moment,
    pub body: Body,
}
