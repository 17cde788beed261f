//! The part of the display on which a window can be touched.
//!
//! A window is touched inside its region, a list of rectangles in display pixels. Rectangles are half-open, as
//! everywhere in Android's input code: the rectangle `[10, 10, 20, 20]` contains the pixel (10, 10) and not the pixel
//! (20, 10), so two windows side by side share no pixel. The region `[10, 10, 20, 20]` and `[15, 15, 30, 18]`
//! contains the points (19, 19) and (29, 17), each in one of the two rectangles, but not (29, 19).
#![tactic(auto)]

mod band;
mod rectangle;
mod region;
mod span;
mod sweep;

pub use rectangle::Rect;
pub use region::{MAX_RECTS, Region, RegionError};
