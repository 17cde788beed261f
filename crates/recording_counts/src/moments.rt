//! The earliest and the latest time.
ghost use Rattle.std.specs.Prelude.{◌≡◌, min, Option, Some};
ghost use Rattle.recording_counts.specs.Moments.{is_below, widened};

use input_types::Moment;

/// The earliest and the latest time of some events.
#[derive(Clone, Copy, Debug, PartialEq, Eq)]
pub struct Span {
    pub first: Moment,
    pub last: Moment,
}

/// The lesser of two moments.
fn earlier(a: Moment, b: Moment) -> Moment
    ensures { result ≡ min a b }
{
    if b.get() < a.get() { b } else { a }
}

/// The moments with one more.
pub(crate) fn widened(span: Option<Span>, moment: Moment) -> Option<Span>
    ensures { result ≡ Some (widened span moment) }
{
    match span {
        None => Some(Span {
            first: moment,
            last: moment,
        }),
        Some(span) => Some(Span {
            first: earlier(span.first, moment),
            last: span.last.later(moment),
        }),
    }
}

/// Whether a time is before the latest one so far.
pub(crate) fn is_below(span: Option<Span>, moment: Moment) -> bool
    ensures { result ≡ is_below span moment }
{
    match span {
        None => false,
        Some(span) => moment.get() < span.last.get(),
    }
}
