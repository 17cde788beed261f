//! A list of rectangles, and the points that lie in some of them.

ghost use Rattle.std.specs.Prelude.{◌≡◌, ◌≤◌, length, IfOk};
ghost use Rattle.touch_region.specs.declared.region.RegionError.TheVariants.{Memory};

use crate::band::{Band, bands_hold, copy_bands};
use crate::rectangle::Rect;
use crate::sweep::bands_of;
use std::alloc::AllocError;
use std::marker::Model;

/// The most rectangles that a region can have.
pub const MAX_RECTS: usize = 64;

/// The part of the display on which a window can be touched: every point that lies in one of its rectangles.
///
/// Contracts see a region as the list of its rectangles, in display pixels, in the order in which they were given.
/// There are at most 64, each with its edges in order. A region with no rectangles, or only empty ones, has no
/// points.
///
/// Two or more rectangles are stored with bands, in which two binary searches find a point: one for the band, one in
/// it for the span. A single rectangle, which nearly every window has, is tested directly.
#[derive(Drop)]
pub struct Region {
    rects: Vec<Rect>,
    bands: Vec<Band>,
}

impl Model for Region {
    ghost use Rattle.std.specs.Prelude.{List};
    ghost use Rattle.touch_region.specs.declared.rectangle.Rect.{Rect};
    ghost use Rattle.touch_region.specs.RectList.{IsRegion};
    ghost use Rattle.touch_region.specs.Bands.{HasBands};

    ghost Value = { List Rect };

    ghost view = { λ r. r.rects.items };

    ghost invariant = { λ r. IsRegion r.rects.items × HasBands r.rects.items r.bands.items };
}

/// Why a list of rectangles is not a region.
#[derive(Clone, Copy, PartialEq, Eq, Debug)]
pub enum RegionError {
    /// More than 64 rectangles.
    TooMany,
    /// The rectangle at index `i`, counted from 0, has its left edge right of its right one, or its top edge below
    /// its bottom one. It is the first such rectangle.
    BadRect {
        /// The index of that rectangle.
        i: u32,
    },
    /// Out of memory for the bands. A single rectangle needs none.
    Memory,
}

impl From<AllocError> for RegionError {
    ghost from_gives = { λ _ e. e ≡ Memory };

    fn from(_error: AllocError) -> RegionError {
        RegionError::Memory
    }
}

impl Region {
    ghost use Rattle.touch_region.specs.Region.{region_of, Gives};
    ghost use Rattle.touch_region.specs.RectList.{region_holds, IsRegion};

    /// The region of these rectangles. More than 64 are refused before any of them is examined; then the first whose
    /// edges are not in order is refused. Two or more rectangles allocate memory, one or none do not.
    pub fn new(rects: Vec<Rect>) -> Result<Region, RegionError>
        ensures region { Gives result (region_of rects.items) }
        ensures no_memory { length rects.items ≤ 1 → result ≡ region_of rects.items }
    {
        if rects.len() > MAX_RECTS {
            return Err(RegionError::TooMany);
        }
        if let Some(i) = first_bad(&rects) {
            return Err(RegionError::BadRect { i: i as u32 });
        }
        if rects.len() <= 1 {
            let bands = Vec::new(*rects.allocator());
            return Ok(Region { rects, bands });
        }
        let bands = bands_of(*rects.allocator(), &rects)?;
        Ok(Region { rects, bands })
    }

    /// Whether the point lies in one of the rectangles.
    pub fn contains(&self, x: i32, y: i32) -> bool
        ensures { result ≡ region_holds self.now x y }
    {
        match self.rects.as_slice() {
            [] => false,
            [rect] => rect.contains(x, y),
            _ => bands_hold(&self.bands, x, y),
        }
    }

    /// An equal region.
    pub fn copy(&self) -> Result<Region, AllocError>
        ensures { IfOk result (λ copied. copied ≡ self.now) }
    {
        let rects = Vec::from_slice(*self.rects.allocator(), &self.rects)?;
        let bands = copy_bands(*self.rects.allocator(), &self.bands)?;
        Ok(Region { rects, bands })
    }

    /// The rectangles, in the order in which they were given.
    pub fn rects(&self) -> &[Rect]
        ensures rects { result.now ≡ self.now }
        ensures valid { IsRegion self.now }
    {
        &self.rects
    }

    /// The list that the region was made from.
    pub fn into_rects(self) -> Vec<Rect>
        ensures { result.items ≡ self }
    {
        let Region { rects, bands: _ } = self;
        rects
    }
}

ghost use Rattle.touch_region.specs.RectList.{first_bad};

// The index of the first rectangle whose edges are not in order.
fn first_bad(rects: &[Rect]) -> Option<usize>
    ensures { result ≡ first_bad rects.now }
{
    rects.iter().position(|rect| !rect.is_ordered())
}
