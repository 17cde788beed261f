//! Appends words and numbers to a text.
ghost use Rattle.std.specs.Prelude.{◌≡◌, ◌++◌, IfOk, decimal};
ghost use Rattle.std.specs.Fmt.{signed_decimal};
ghost use Rattle.text_lines.specs.Written.{labeled};

use itoa::Buffer;
use std::alloc::AllocError;

/// Appends a word.
#[inline]
pub fn add_word(text: &mut Vec<u8>, word: &str) -> Result<(), AllocError>
    ensures { IfOk result (λ _. text.new.items ≡ text.old.items ++ word.now) }
{
    text.extend_from_slice(word.as_bytes())
}

/// Appends a number in decimal digits.
#[inline(always)]
pub fn add_number(text: &mut Vec<u8>, number: u64) -> Result<(), AllocError>
    ensures { IfOk result (λ _. text.new.items ≡ text.old.items ++ decimal number) }
{
    let mut buffer = Buffer::new();
    text.extend_from_slice(buffer.format(number).as_bytes())
}

/// Appends a signed number in decimal digits.
#[inline(always)]
pub fn add_signed(text: &mut Vec<u8>, number: i32) -> Result<(), AllocError>
    ensures { IfOk result (λ _. text.new.items ≡ text.old.items ++ signed_decimal number) }
{
    let mut buffer = Buffer::new();
    text.extend_from_slice(buffer.format(number).as_bytes())
}

/// Appends some words, then a number.
#[inline]
#[tactic(auto, unfolding(crate::specs::Written::labeled))]
pub fn add_labeled(text: &mut Vec<u8>, words: &str, number: u64) -> Result<(), AllocError>
    ensures { IfOk result (λ _. text.new.items ≡ text.old.items ++ labeled words.now number) }
{
    add_word(text, words)?;
    add_number(text, number)
}
