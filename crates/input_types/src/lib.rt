//! The plain data of an input service: what a device reports, what a window is sent, and when.
//!
//! A finger that goes down at (540, 1200) on device 1 at 12,345.1 seconds is the message
//!
//! ```text
//! Message { seq: 1, moment: 12345100000, body: Motion { device: 1, action: Down, index: 0, flags: 0, pointers: [0 at
//! (540, 1200)] } }
//! ```
//!
//! and its action word, as a MotionEvent has it, is 0. All types here are `Copy` and own no memory. A list of pointers
//! is a fixed table of 16 places, a [`short_list`]; contracts see the list of those in use.
#![tactic(auto)]

mod axis;
mod display;
mod key;
mod message;
mod motion;
mod number;
mod pointer;
pub mod short_list;

pub use axis::{Axis, Pixel, Rotation};
pub use display::Displays;
pub use key::{KeyArgs, KeyMsg};
pub use message::{Args, Body, Message};
pub use motion::{FLAG_CANCELED, FLAG_OBSCURED, FLAG_PARTLY_OBSCURED, Motion, MotionAction};
pub use number::{DeviceId, DisplayId, Limit, Moment, PointerId};
pub use pointer::{Pointer, Pointers, PushRefused};
