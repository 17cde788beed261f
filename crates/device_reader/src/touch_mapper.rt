//! From the pointers of a touch device to pixels and gestures.
//!
//! `Cook` turns a raw position into a display pixel. With both axes 0 to 4095 on a display of 1080 by 2400 pixels, the
//! raw position (2048, 1024) is the pixel (540, 600), or (600, 539) if the display is turned by 90 degrees.
//!
//! `Gestures` says what happened between two packets, as a MotionEvent does. If a packet with the fingers 0 and 1
//! follows one with finger 0, it gives a `PointerDown` of finger 1 that lists both. A packet with finger 1 alone then
//! gives a `PointerUp` of finger 0 that lists both; if finger 0 became a palm, that motion has `FLAG_CANCELED`.
mod cook;
mod gesture;
mod gestures;
mod lists;

pub use cook::{BadRange, Cook};
pub use gestures::Gestures;
