//! The words of flags.
ghost use Rattle.std.specs.Prelude.{◌≡◌, ◌+◌, ◌≤◌, ◌++◌, length, drop};
ghost use Rattle.input_types.specs.Gestures.{unmarked};
ghost use Rattle.stream_text.specs.Spelling.{canceled, flag_words, has_flag, word_if};

use crate::writing::prepend::{Room, prepend_word};
use input_types::{FLAG_CANCELED, FLAG_OBSCURED, FLAG_PARTLY_OBSCURED};

/// Writes ` canceled` in front of `end` if the flags are `FLAG_CANCELED`, and returns where it begins.
pub(crate) fn prepend_canceled(line: &mut Room, end: usize, flags: u32) -> usize
    requires { (9 ≤ end) × (end ≤ 1280) }
    ensures within { (result ≤ end) × (end ≤ result + 9) }
    ensures written { drop result line.new ≡ canceled flags ++ drop end line.old }
{
    if flags == FLAG_CANCELED {
        prepend_word(line, end, " canceled")
    } else {
        end
    }
}

/// Writes the word of a mark in front of `end` if the mark is there, and returns where it begins.
fn prepend_mark(line: &mut Room, end: usize, word: &str, is_there: bool) -> usize
    requires { (length word.now ≤ end) × (end ≤ 1280) }
    ensures within { (result ≤ end) × (end ≤ result + length word.now) }
    ensures written { drop result line.new ≡ word_if is_there word.now ++ drop end line.old }
{
    if is_there {
        prepend_word(line, end, word)
    } else {
        end
    }
}

/// Whether a flag is set.
fn has_flag(flag: u32, flags: u32) -> bool
    ensures { result ≡ has_flag flag flags }
{
    flags & flag != 0
}

/// Flags without the marks.
fn unmarked(flags: u32) -> u32
    ensures { result ≡ unmarked flags }
{
    flags & !(FLAG_OBSCURED | FLAG_PARTLY_OBSCURED)
}

/// Writes the words of a motion's flags in front of `end`, and returns where they begin.
#[tactic(auto, unfolding(crate::specs::Spelling::flag_words))]
pub(crate) fn prepend_flags(line: &mut Room, end: usize, flags: u32) -> usize
    requires { (25 ≤ end) × (end ≤ 1280) }
    ensures within { (result ≤ end) × (end ≤ result + 25) }
    ensures written { drop result line.new ≡ flag_words flags ++ drop end line.old }
{
    let at = prepend_mark(line, end, " partly", has_flag(FLAG_PARTLY_OBSCURED, flags));
    let at = prepend_mark(line, at, " obscured", has_flag(FLAG_OBSCURED, flags));
    prepend_canceled(line, at, unmarked(flags))
}

/// The same. Most motions have no flags, so test that first, outside the call.
#[inline(always)]
#[tactic(auto, unfolding(crate::specs::Spelling::flag_words))]
pub(crate) fn prepend_any_flags(line: &mut Room, end: usize, flags: u32) -> usize
    requires { (25 ≤ end) × (end ≤ 1280) }
    ensures within { (result ≤ end) × (end ≤ result + 25) }
    ensures written { drop result line.new ≡ flag_words flags ++ drop end line.old }
{
    if flags == 0 {
        return end;
    }
    prepend_flags(line, end, flags)
}
