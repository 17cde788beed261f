//! In what two points differ, if they do not agree.
ghost use Rattle.std.specs.Prelude.{◌≡◌, ◌-ℤ◌};
ghost use Rattle.compare_text.specs.Agreement.{close_by, near, same_ids};
ghost use Rattle.compare_text.specs.Differing.{body_apart, difference_of, key_apart, motion_apart, moved, place_apart, time_apart};

use crate::comparison::Tolerance;
use crate::difference::Difference;
use input_types::{Body, KeyMsg, Message, Moment, Motion, Pixel, Pointer};

/// Whether two moments are near.
fn near(us: u64, a: Moment, b: Moment) -> bool
    ensures { result ≡ near us a b }
{
    a.get().abs_diff(b.get()) <= us
}

/// Whether two places are close on both axes.
fn close_by(pixels: u32, a: Pixel, b: Pixel) -> bool
    ensures { result ≡ close_by pixels a b }
{
    a.x.abs_diff(b.x) <= pixels && a.y.abs_diff(b.y) <= pixels
}

/// Whether pointers have the same ids in order.
fn same_ids(a: &[Pointer], b: &[Pointer]) -> bool
    ensures { result ≡ same_ids a.now b.now }
{
    match a {
        [] => b.is_empty(),
        [p, ps @ ..] => match b {
            [] => false,
            [q, qs @ ..] => p.id.get() == q.id.get() && same_ids(ps, qs),
        },
    }
}

/// How far a coordinate is from the expected one.
fn further(want: i32, got: i32) -> i64
    ensures { result ≡ got -ℤ want }
{
    i64::from(got) - i64::from(want)
}

/// How far a place is from the expected one.
fn moved(want: Pixel, got: Pixel) -> Difference
    ensures { result ≡ moved want got }
{
    Difference::Place {
        dx: further(want.x, got.x),
        dy: further(want.y, got.y),
    }
}

/// The first pointer that is too far from its place.
fn place_apart(pixels: u32, want: &[Pointer], got: &[Pointer]) -> Option<Difference>
    ensures { result ≡ place_apart pixels want.now got.now }
{
    match want {
        [] => None,
        [p, ps @ ..] => match got {
            [] => None,
            [q, qs @ ..] => {
                if close_by(pixels, p.at, q.at) {
                    place_apart(pixels, ps, qs)
                } else {
                    Some(moved(p.at, q.at))
                }
            }
        },
    }
}

/// In what two motions differ.
fn motion_apart(pixels: u32, want: &Motion, got: &Motion) -> Option<Difference>
    ensures { result ≡ motion_apart pixels want.now got.now }
{
    let wanted = want.pointers.as_slice();
    let came = got.pointers.as_slice();
    if want.device.get() != got.device.get() {
        Some(Difference::Device)
    } else if want.action.number() != got.action.number() {
        Some(Difference::Action)
    } else if want.index != got.index {
        Some(Difference::Index)
    } else if want.flags != got.flags {
        Some(Difference::Flags)
    } else if !same_ids(wanted, came) {
        Some(Difference::Pointers)
    } else {
        place_apart(pixels, wanted, came)
    }
}

/// In what two key messages differ.
fn key_apart(want: &KeyMsg, got: &KeyMsg) -> Option<Difference>
    ensures { result ≡ key_apart want.now got.now }
{
    if want.key.device.get() != got.key.device.get() {
        Some(Difference::Device)
    } else if want.key.scan != got.key.scan {
        Some(Difference::Scan)
    } else if want.key.code != got.key.code {
        Some(Difference::Code)
    } else if want.key.meta != got.key.meta {
        Some(Difference::Meta)
    } else if want.key.down != got.key.down {
        Some(Difference::Direction)
    } else if want.flags != got.flags {
        Some(Difference::Flags)
    } else if want.repeat != got.repeat {
        Some(Difference::Repeat)
    } else {
        None
    }
}

/// In what the bodies of two messages differ.
fn body_apart(pixels: u32, want: &Body, got: &Body) -> Option<Difference>
    ensures { result ≡ body_apart pixels want.now got.now }
{
    match (want, got) {
        (Body::Motion(want), Body::Motion(got)) => motion_apart(pixels, want, got),
        (Body::Key(want), Body::Key(got)) => key_apart(want, got),
        (Body::Focus(want), Body::Focus(got)) => {
            if *want == *got {
                None
            } else {
                Some(Difference::Focus)
            }
        }
        _ => Some(Difference::Kind),
    }
}

/// How far a time is from the expected one, if it is too far.
fn time_apart(us: u64, want: Moment, got: Moment) -> Option<Difference>
    ensures { result ≡ time_apart us want got }
{
    if near(us, want, got) {
        None
    } else {
        Some(Difference::Time {
            us: got.get() as i64 - want.get() as i64,
        })
    }
}

/// In what an actual point differs from the expected one; None if they agree.
pub(crate) fn difference_of(
    tolerance: Tolerance,
    want: &Message,
    got: &Message,
) -> Option<Difference>
    ensures { result ≡ difference_of tolerance.us tolerance.pixels want.now got.now }
{
    match body_apart(tolerance.pixels, &want.body, &got.body) {
        Some(difference) => Some(difference),
        None => time_apart(tolerance.us, want.moment, got.moment),
    }
}
