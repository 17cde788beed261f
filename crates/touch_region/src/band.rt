//! Bands: the points of a list of rectangles row by row, so that a point is found without testing each rectangle.

ghost use Rattle.std.specs.Prelude.{◌≡◌, ◌&&◌, IfOk, int_le};
ghost use Rattle.touch_region.specs.Between.{is_between};
ghost use Rattle.touch_region.specs.Spans.{spans_hold, AreApart};
ghost use Rattle.touch_region.specs.Bands.{bands_hold};

use crate::span::{Span, is_between, spans_hold};
use std::alloc::{AllocError, Global};
use std::marker::Model;

/// The rows of pixels from `top` until `bottom`. In each of them the same spans belong to the region.
///
/// Contracts see a band as its edges and the list of its spans, which run from left to right without overlap.
#[derive(Drop)]
pub(crate) struct Band {
    pub(crate) top: i32,
    pub(crate) bottom: i32,
    pub(crate) spans: Vec<Span>,
}

impl Model for Band {
    ghost use Rattle.touch_region.specs.Spans.{AreApart};
    ghost use Rattle.touch_region.specs.Bands.{Row};

    ghost Value = { Row };

    ghost view = { λ b. record { top = b.top; bottom = b.bottom; spans = b.spans.items } };

    ghost invariant = { λ b. AreApart (λ s. s.from) (λ s. s.until) b.spans.items };
}

impl Band {
    /// Whether the band ends above the row y.
    fn ends_above(&self, y: i32) -> bool
        ensures { result ≡ int_le self.now.bottom y }
    {
        self.bottom <= y
    }

    /// Whether the point lies in the band.
    fn contains(&self, x: i32, y: i32) -> bool
        ensures { result ≡ is_between self.now.top y self.now.bottom && spans_hold self.now.spans x }
    {
        is_between(self.top, y, self.bottom) && spans_hold(&self.spans, x)
    }

    /// An equal band.
    fn copy(&self) -> Result<Band, AllocError>
        ensures { IfOk result (λ copied. copied ≡ self.now) }
    {
        let spans = Vec::from_slice(*self.spans.allocator(), &self.spans)?;
        Ok(Band {
            top: self.top,
            bottom: self.bottom,
            spans,
        })
    }
}

/// Whether the point lies in one of the bands, which stand one below the other.
pub(crate) fn bands_hold(bands: &[Band], x: i32, y: i32) -> bool
    requires { AreApart (λ b. b.top) (λ b. b.bottom) bands.now }
    ensures { result ≡ bands_hold bands.now x y }
{
    let place = bands.partition_point(|band| band.ends_above(y));
    match bands.get(place) {
        Some(band) => band.contains(x, y),
        None => false,
    }
}

/// Equal bands.
pub(crate) fn copy_bands(alloc: Global, bands: &[Band]) -> Result<Vec<Band>, AllocError>
    ensures { IfOk result (λ copied. copied.items ≡ bands.now) }
{
    let mut copied = Vec::new(alloc);
    for band in bands {
        copied.push(band.copy()?)?;
    }
    Ok(copied)
}
