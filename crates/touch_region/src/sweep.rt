//! From rectangles to bands, from edge to edge down the rows.

ghost use Rattle.std.specs.Prelude.{◌≡◌, ◌||◌, ℤ, ◌≤◌, ◌<ℤ◌, ◌≤ℤ◌, List, length, IfOk};
ghost use Rattle.std.specs.List.{All};
ghost use Rattle.touch_region.specs.declared.span.Span.{Span};
ghost use Rattle.touch_region.specs.RectList.{region_holds};
ghost use Rattle.touch_region.specs.Spans.{spans_hold, AreApart, InOrder};
ghost use Rattle.touch_region.specs.Bands.{with_band, AreBands};
ghost use Rattle.touch_region.specs.Edges.{lower_edges, nearer, IsNextEdge};

use crate::band::Band;
use crate::rectangle::Rect;
use crate::span::{Span, joined};
use std::alloc::{AllocError, Global};

/// The bands of a list of rectangles.
///
/// The time is linear in the rectangles if they stand in bands, as pixman keeps them: sorted by their top edges, those
/// of one band equally high and sorted by their left edges.
pub(crate) fn bands_of(alloc: Global, rects: &[Rect]) -> Result<Vec<Band>, AllocError>
    requires { length rects.now ≤ 64 }
    ensures { IfOk result (λ bands. AreBands rects.now bands.items) }
{
    let mut sorted = Vec::from_slice(alloc, rects)?;
    sorted.sort_unstable_by_key(|rect| rect.top);
    sweep(alloc, &sorted)
}

/// The bands of rectangles that are sorted by their top edges.
fn sweep(alloc: Global, rects: &[Rect]) -> Result<Vec<Band>, AllocError>
    requires order { InOrder (λ r. r.top) rects.now }
    requires few { length rects.now ≤ 64 }
    ensures { IfOk result (λ bands. AreBands rects.now bands.items) }
{
    let mut bands = Vec::new(alloc);
    let [first, ..] = rects else {
        return Ok(bands);
    };
    let mut open = Vec::new(alloc);
    let mut rest = rects;
    let mut top = first.top;
    'rows: while let Some(bottom) = next_edge(rest, top) {
        add_band(&mut bands, &mut open, rest, top, bottom)?;
        rest = below(rest, bottom);
        top = bottom;
    }
    Ok(bands)
}

/// The first edge below row y, if there is one: from y down to it, all rows have the same points.
fn next_edge(rects: &[Rect], y: i32) -> Option<i32>
    requires { InOrder (λ r. r.top) rects.now }
    ensures { IsNextEdge rects.now y result }
{
    let mut next = None;
    let mut rest = rects;
    while let [rect, later @ ..] = rest {
        if y < rect.top {
            return Some(nearer(next, rect.top));
        }
        if y < rect.bottom {
            next = Some(nearer(next, rect.bottom));
        }
        rest = later;
    }
    next
}

/// The nearer one of two edges below a row.
fn nearer(next: Option<i32>, edge: i32) -> i32
    ensures { result ≡ nearer next edge }
{
    match next {
        Some(next) if next < edge => next,
        _ => edge,
    }
}

/// The rectangles without those at the front that end at row y or above it.
fn below(rects: &[Rect], y: i32) -> &[Rect]
    requires { InOrder (λ r. r.top) rects.now }
    ensures order { InOrder (λ r. r.top) result.now }
    ensures same { (x z : ℤ) → y ≤ℤ z → region_holds result.now x z ≡ region_holds rects.now x z }
    ensures fewer { lower_edges y result.now ≤ lower_edges y rects.now }
{
    let mut rest = rects;
    while let [rect, later @ ..] = rest {
        if y < rect.bottom {
            return rest;
        }
        rest = later;
    }
    rest
}

/// Adds the rows from `top` until `bottom` as a band below the others, if the rectangles have points in row `top`.
fn add_band(
    bands: &mut Vec<Band>,
    open: &mut Vec<Span>,
    rects: &[Rect],
    top: i32,
    bottom: i32,
) -> Result<(), AllocError>
    requires { InOrder (λ r. r.top) rects.now }
    ensures { IfOk result (λ _. (spans : List Span)
        × ((x : ℤ) → spans_hold spans x ≡ region_holds rects.now x top)
        × (bands.new.items ≡ with_band top bottom spans bands.old.items)) }
{
    let spans = spans_at(open, rects, top)?;
    if !spans.is_empty() {
        bands.push(Band { top, bottom, spans })?;
    }
    Ok(())
}

/// The spans of row y. What `open` had is lost: it is lent so that a row needs no list of its own.
fn spans_at(open: &mut Vec<Span>, rects: &[Rect], y: i32) -> Result<Vec<Span>, AllocError>
    requires { InOrder (λ r. r.top) rects.now }
    ensures apart { IfOk result (λ spans. AreApart (λ s. s.from) (λ s. s.until) spans.items) }
    ensures same { IfOk result (λ spans. (x : ℤ) → spans_hold spans.items x ≡ region_holds rects.now x y) }
{
    open.clear();
    add_spans(open, rects, y)?;
    open.sort_unstable_by_key(|span| span.from);
    joined(*open.allocator(), open)
}

/// Adds the columns of each rectangle that has points in row y.
fn add_spans(spans: &mut Vec<Span>, rects: &[Rect], y: i32) -> Result<(), AllocError>
    requires wide { All (λ s. s.from <ℤ s.until) spans.old.items }
    requires order { InOrder (λ r. r.top) rects.now }
    ensures wide { IfOk result (λ _. All (λ s. s.from <ℤ s.until) spans.new.items) }
    ensures same { IfOk result (λ _. (x : ℤ)
        → spans_hold spans.new.items x ≡ (spans_hold spans.old.items x || region_holds rects.now x y)) }
{
    let mut rest = rects;
    while let [rect, later @ ..] = rest {
        if y < rect.top {
            return Ok(());
        }
        if y < rect.bottom && rect.left < rect.right {
            spans.push(rect.columns())?;
        }
        rest = later;
    }
    Ok(())
}
