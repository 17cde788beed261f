//! A rectangle of display pixels.

ghost use Rattle.std.specs.Prelude.{◌≡◌};

use crate::span::{Span, is_between};

/// A rectangle in display pixels, half-open: it contains the points with `left <= x < right` and `top <= y < bottom`.
///
/// Any four numbers make a rectangle, so one whose right edge is not right of its left edge has no point.
#[derive(Clone, Copy, PartialEq, Eq, Debug)]
pub struct Rect {
    /// The least x of its points.
    pub left: i32,
    /// The least y of its points; y grows downwards.
    pub top: i32,
    /// The x just right of its last column.
    pub right: i32,
    /// The y just below its last row.
    pub bottom: i32,
}

impl Rect {
    ghost use Rattle.touch_region.specs.Rectangle.{rect_holds, is_ordered};
    ghost use Rattle.touch_region.specs.Bands.{columns_of};

    /// Whether the point lies in the rectangle.
    pub fn contains(&self, x: i32, y: i32) -> bool
        ensures { result ≡ rect_holds self.now x y }
    {
        is_between(self.left, x, self.right) && is_between(self.top, y, self.bottom)
    }

    /// Whether the left edge is not right of the right one, and the top edge not below the bottom one. Equal edges
    /// are in order, but the rectangle then has no points.
    pub fn is_ordered(&self) -> bool
        ensures { result ≡ is_ordered self.now }
    {
        self.left <= self.right && self.top <= self.bottom
    }

    /// Its columns of pixels.
    pub(crate) fn columns(&self) -> Span
        ensures { result ≡ columns_of self.now }
    {
        Span {
            from: self.left,
            until: self.right,
        }
    }
}
