//! Reading the words of flags.
ghost use Rattle.std.specs.Prelude.{◌≡◌};
ghost use Rattle.stream_text.specs.MessageLine.{canceled_at, flag_at, flags_at};

use crate::reading::number::past;
use input_types::{FLAG_CANCELED, FLAG_OBSCURED, FLAG_PARTLY_OBSCURED};

/// A flag if its word stands there, or else 0.
#[inline(always)]
#[tactic(auto, unfolding(crate::specs::MessageLine::flag_at))]
fn flag<'a>(word: &str, flag: u32, bytes: &'a [u8]) -> (u32, &'a [u8])
    ensures { (result.0, result.1.now) ≡ flag_at word.now flag bytes.now }
{
    match past(word, bytes) {
        Some(rest) => (flag, rest),
        None => (0, bytes),
    }
}

/// `FLAG_CANCELED` if ` canceled` stands there, or else 0.
#[inline(always)]
pub(crate) fn canceled(bytes: &[u8]) -> (u32, &[u8])
    ensures { (result.0, result.1.now) ≡ canceled_at bytes.now }
{
    flag(" canceled", FLAG_CANCELED, bytes)
}

/// The flags of a motion.
#[inline(always)]
#[tactic(auto, unfolding(crate::specs::MessageLine::flags_at))]
pub(crate) fn flags(bytes: &[u8]) -> (u32, &[u8])
    ensures { (result.0, result.1.now) ≡ flags_at bytes.now }
{
    let (canceled, rest) = canceled(bytes);
    let (obscured, rest) = flag(" obscured", FLAG_OBSCURED, rest);
    let (partly, rest) = flag(" partly", FLAG_PARTLY_OBSCURED, rest);
    (canceled | obscured | partly, rest)
}
