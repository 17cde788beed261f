//! Stretches of pixels along one axis.

ghost use Rattle.std.specs.Prelude.{◌≡◌, ℤ, ◌<ℤ◌, IfOk};
ghost use Rattle.std.specs.List.{All};
ghost use Rattle.touch_region.specs.Between.{is_between};
ghost use Rattle.touch_region.specs.Spans.{spans_hold, AreApart, InOrder};

use std::alloc::{AllocError, Global};

/// The pixels of a row or a column with `from <= x < until`.
#[derive(Clone, Copy)]
pub(crate) struct Span {
    pub(crate) from: i32,
    pub(crate) until: i32,
}

impl Span {
    /// Whether x lies in the span.
    pub(crate) fn contains(&self, x: i32) -> bool
        ensures { result ≡ is_between self.now.from x self.now.until }
    {
        is_between(self.from, x, self.until)
    }
}

/// Whether `from <= x < until`.
pub(crate) fn is_between(from: i32, x: i32, until: i32) -> bool
    ensures { result ≡ is_between from x until }
{
    from <= x && x < until
}

/// Whether x lies in one of the spans, which stand one after the other.
pub(crate) fn spans_hold(spans: &[Span], x: i32) -> bool
    requires { AreApart (λ s. s.from) (λ s. s.until) spans.now }
    ensures { result ≡ spans_hold spans.now x }
{
    let place = spans.partition_point(|span| span.until <= x);
    match spans.get(place) {
        Some(span) => span.contains(x),
        None => false,
    }
}

/// The same pixels in spans that stand apart. Spans that overlap or touch become one.
pub(crate) fn joined(alloc: Global, spans: &[Span]) -> Result<Vec<Span>, AllocError>
    requires wide { All (λ s. s.from <ℤ s.until) spans.now }
    requires order { InOrder (λ s. s.from) spans.now }
    ensures apart { IfOk result (λ joined. AreApart (λ s. s.from) (λ s. s.until) joined.items) }
    ensures same { IfOk result (λ joined. (x : ℤ) → spans_hold joined.items x ≡ spans_hold spans.now x) }
{
    let mut joined = Vec::new(alloc);
    let [first, later @ ..] = spans else {
        return Ok(joined);
    };
    let mut last = *first;
    let mut rest = later;
    while let [span, later @ ..] = rest {
        if last.until < span.from {
            joined.push(last)?;
            last = *span;
        } else if last.until < span.until {
            last.until = span.until;
        }
        rest = later;
    }
    joined.push(last)?;
    Ok(joined)
}
