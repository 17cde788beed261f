//! How far points are from their partners.
ghost use Rattle.std.specs.Prelude.{◌≡◌, ◌+◌, ◌^◌, ◌<◌, [], max};
ghost use Rattle.compare_text.specs.Measured.{body_distances, distance, distances, greatest, measure, with_pair};

use input_types::{Body, Message, Pixel, Pointer};

/// How many pairs of points there are, and the greatest distances of them.
#[derive(Clone, Copy, Debug, PartialEq, Eq)]
pub(crate) struct Measure {
    pub points: u64,
    /// In microseconds.
    pub us: u64,
    /// In pixels, on either axis.
    pub pixels: u64,
}

/// The greater of two numbers.
fn greater(a: u64, b: u64) -> u64
    ensures { result ≡ max a b }
{
    if a < b { b } else { a }
}

/// The distance of two places, on the axis on which it is greater.
fn distance(a: Pixel, b: Pixel) -> u64
    ensures { result ≡ distance a b }
{
    greater(u64::from(a.x.abs_diff(b.x)), u64::from(a.y.abs_diff(b.y)))
}

/// The greatest distance of pointers.
fn greatest_distance(a: &[Pointer], b: &[Pointer]) -> u64
    ensures { result ≡ greatest (distances a.now b.now) }
{
    match a {
        [] => 0,
        [p, ps @ ..] => match b {
            [] => 0,
            [q, qs @ ..] => greater(distance(p.at, q.at), greatest_distance(ps, qs)),
        },
    }
}

/// The greatest distance of the pointers of two points.
fn body_distance(a: &Body, b: &Body) -> u64
    ensures { result ≡ greatest (body_distances a.now b.now) }
{
    match (a, b) {
        (Body::Motion(a), Body::Motion(b)) => {
            greatest_distance(a.pointers.as_slice(), b.pointers.as_slice())
        }
        _ => 0,
    }
}

impl Measure {
    /// Before the first pair.
    pub(crate) fn zero() -> Measure
        ensures { result ≡ measure [] }
    {
        Measure {
            points: 0,
            us: 0,
            pixels: 0,
        }
    }

    /// With one more pair.
    pub(crate) fn with_pair(self, want: &Message, got: &Message) -> Measure
        requires { self.points + 1 < 2 ^ 64 }
        ensures { result ≡ with_pair self want.now got.now }
    {
        Measure {
            points: self.points + 1,
            us: greater(self.us, want.moment.get().abs_diff(got.moment.get())),
            pixels: greater(self.pixels, body_distance(&want.body, &got.body)),
        }
    }
}
