//! A piece of a recording as lines.
ghost use Rattle.std.specs.Prelude.{◌≡◌, ◌<◌, ◌∷◌, [], length, IfSome, MatchOption};
ghost use Rattle.raw_events.specs.Pieces.{parts};

use text_lines::line_len;

/// The bytes up to the first newline, and those after it; None if there is no newline.
#[inline(always)]
pub(crate) fn next_line(bytes: &[u8]) -> Option<(&[u8], &[u8])>
    ensures parts { MatchOption result (parts bytes.now ≡ record { ended = []; begun = bytes.now })
        (λ cut. parts bytes.now
        ≡ record { ended = cut.0.now ∷ (parts cut.1.now).ended; begun = (parts cut.1.now).begun }) }
    ensures shorter { IfSome result (λ cut. length cut.1.now < length bytes.now) }
{
    let (line, rest) = bytes.split_at(line_len(bytes));
    match rest {
        [_, after @ ..] => Some((line, after)),
        [] => None,
    }
}
