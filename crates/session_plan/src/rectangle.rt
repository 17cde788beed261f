//! Rectangles, and where a window can be touched.
ghost use Rattle.std.specs.Prelude.{[], ◌≡◌, ◌≤◌, true, false, int_le, map, length, is_some, ◌&&◌, MatchResult, IfOk, IfSome};
ghost use Rattle.std.specs.List.{list_all};
ghost use Rattle.toml.specs.View.{view};
ghost use Rattle.touch_region.specs.RectList.{first_bad};
ghost use Rattle.touch_region.specs.Rectangle.{is_ordered as is_in_order};
ghost use Rattle.session_plan.specs.declared.error.PlanError.TheVariants.{Memory};
ghost use Rattle.session_plan.specs.Gives.{Gives};
ghost use Rattle.session_plan.specs.Keys.{key_of};
ghost use Rattle.session_plan.specs.Reading.{each};
ghost use Rattle.session_plan.specs.Rectangles.{from_edges, corners_of, rect_of, rectangle, rects_of, region_at};

use crate::error::PlanError;
use crate::key::{Place, key_text};
use crate::reading::{at_most, coordinate, elements};
use std::alloc::Global;
use toml::Value;
use touch_region::{MAX_RECTS, Rect, Region, RegionError};

/// The edges of a rectangle, which may be too great for one.
#[derive(Clone, Copy)]
pub(crate) struct Corners {
    left: i64,
    top: i64,
    right: i64,
    bottom: i64,
}

/// Whether two edges are in order.
fn is_ordered(low: i64, high: i64) -> bool
    ensures { result ≡ int_le low high }
{
    low <= high
}

/// A rectangle of these edges, where all are there and in order.
fn from_edges(
    left: Option<i64>,
    top: Option<i64>,
    right: Option<i64>,
    bottom: Option<i64>,
) -> Option<Corners>
    ensures value { result ≡ from_edges left top right bottom }
    ensures ordered { IfSome result (λ c. (int_le c.left c.right && int_le c.top c.bottom) ≡ true) }
{
    let left = left?;
    let top = top?;
    let right = right?;
    let bottom = bottom?;
    if is_ordered(left, right) && is_ordered(top, bottom) {
        Some(Corners {
            left,
            top,
            right,
            bottom,
        })
    } else {
        None
    }
}

/// A rectangle of these values.
fn corners_of(values: &[Value]) -> Option<Corners>
    ensures value { result ≡ corners_of (map view values.now) }
    ensures ordered { IfSome result (λ c. (int_le c.left c.right && int_le c.top c.bottom) ≡ true) }
{
    match values {
        [a, b, c, d] => from_edges(
            a.as_integer(),
            b.as_integer(),
            c.as_integer(),
            d.as_integer(),
        ),
        _ => None,
    }
}

/// A value as a rectangle; None if it is none, whatever its numbers are.
#[tactic(auto, unfolding(crate::specs::Rectangles::rectangle))]
fn rectangle(value: &Value) -> Option<Corners>
    ensures value { result ≡ rectangle (view value.now) }
    ensures ordered { IfSome result (λ c. (int_le c.left c.right && int_le c.top c.bottom) ≡ true) }
{
    let values = elements(value)?;
    corners_of(values)
}

/// The rectangle that a value at a key is.
#[tactic(auto, unfolding(crate::specs::Rectangles::rect_of))]
pub(crate) fn rect(alloc: Global, place: Place, key: &str, value: &Value) -> Result<Rect, PlanError>
    ensures value { Gives (λ r. r) result (rect_of (key_of place key.now) (view value.now)) }
    ensures ordered { IfOk result (λ r. is_in_order r ≡ true) }
{
    let Some(corners) = rectangle(value) else {
        return Err(PlanError::Wrong {
            key: key_text(alloc, place, key)?,
        });
    };
    let left = coordinate(alloc, place, key, corners.left)?;
    let top = coordinate(alloc, place, key, corners.top)?;
    let right = coordinate(alloc, place, key, corners.right)?;
    let bottom = coordinate(alloc, place, key, corners.bottom)?;
    Ok(Rect {
        left,
        top,
        right,
        bottom,
    })
}

/// Whether all values are rectangles, whatever their numbers are.
fn are_rectangles(values: &[Value]) -> bool
    ensures { result ≡ list_all (λ d. is_some (rectangle d)) (map view values.now) }
{
    for value in values {
        if rectangle(value).is_none() {
            return false;
        }
    }
    true
}

/// The rectangles that the values at a key are.
fn each_rect(
    alloc: Global,
    place: Place,
    key: &str,
    values: &[Value],
) -> Result<Vec<Rect>, PlanError>
    ensures value { Gives
        (λ v. v.items) result (each (λ k found d. rect_of (key_of place key.now) d) 1 [] (map view values.now)) }
    ensures len { IfOk result (λ v. length v.items ≡ length values.now) }
    ensures ordered { IfOk result (λ v. first_bad v.items ≡ None) }
{
    let mut rects = Vec::new(alloc);
    for value in values {
        rects.push(rect(alloc, place, key, value)?)?;
    }
    Ok(rects)
}

/// The rectangles of the array at a key.
#[tactic(auto, unfolding(crate::specs::Rectangles::rects_of))]
fn rects(alloc: Global, place: Place, key: &str, value: &Value) -> Result<Vec<Rect>, PlanError>
    ensures value { Gives (λ v. v.items) result (rects_of (key_of place key.now) (view value.now)) }
    ensures few { IfOk result (λ v. length v.items ≤ 64) }
    ensures ordered { IfOk result (λ v. first_bad v.items ≡ None) }
{
    let Some(values) = elements(value) else {
        return Err(PlanError::Wrong {
            key: key_text(alloc, place, key)?,
        });
    };
    if !are_rectangles(values) {
        return Err(PlanError::Wrong {
            key: key_text(alloc, place, key)?,
        });
    }
    at_most(alloc, place, key, MAX_RECTS, values)?;
    each_rect(alloc, place, key, values)
}

/// The region of these rectangles.
fn region_of(rects: Vec<Rect>) -> Result<Region, PlanError>
    requires few { length rects.items ≤ 64 }
    requires ordered { first_bad rects.items ≡ None }
    ensures { MatchResult result (λ r. r ≡ rects.items) (λ e. e ≡ Memory) }
{
    match Region::new(rects) {
        Ok(region) => Ok(region),
        Err(RegionError::Memory) => Err(PlanError::Memory),
        Err(_) => unreachable!(),
    }
}

/// Where the window of a table can be touched: the rectangles that the table has, or its frame alone.
#[tactic(auto, unfolding(crate::specs::Rectangles::region_at))]
pub(crate) fn region(
    alloc: Global,
    place: Place,
    frame: Rect,
    table: &Value,
) -> Result<Region, PlanError>
    requires { is_in_order frame ≡ true }
    ensures { Gives (λ r. r) result (region_at place frame (view table.now)) }
{
    match table.get("region") {
        Some(value) => {
            let rects = rects(alloc, place, "region", value)?;
            region_of(rects)
        }
        None => {
            let rects = Vec::from_slice(alloc, &[frame])?;
            region_of(rects)
        }
    }
}
