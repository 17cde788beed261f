//! What all lines have in common.
ghost use Rattle.std.specs.Prelude.{◌≡◌, ◌++◌, codes, decimal, IfOk};
ghost use Rattle.std.specs.Fmt.{signed_decimal};
ghost use Rattle.why_text.specs.Lines.{pointer_words};

use input_types::{DeviceId, Moment, Pixel, Pointer};
use std::alloc::AllocError;
use text_lines::{add_number, add_signed, add_word};

/// Adds the clock with which a line begins.
#[inline]
pub(crate) fn add_clock(text: &mut Vec<u8>, clock: Moment) -> Result<(), AllocError>
    ensures { IfOk result (λ _. text.new.items ≡ text.old.items ++ (decimal clock ++ codes " ")) }
{
    add_number(text, clock.get())?;
    add_word(text, " ")
}

/// Adds a number of a device behind some words, and a space.
#[inline]
pub(crate) fn add_device(
    text: &mut Vec<u8>,
    words: &str,
    device: DeviceId,
) -> Result<(), AllocError>
    ensures { IfOk result (λ _. text.new.items ≡ text.old.items ++ (words.now ++ decimal device ++ codes " ")) }
{
    add_word(text, words)?;
    add_number(text, u64::from(device.get()))?;
    add_word(text, " ")
}

/// Adds a position, or a corner.
pub(crate) fn add_place(text: &mut Vec<u8>, x: i32, y: i32) -> Result<(), AllocError>
    ensures { IfOk result (λ _. text.new.items
        ≡ text.old.items ++ (signed_decimal x ++ codes "," ++ signed_decimal y)) }
{
    add_signed(text, x)?;
    add_word(text, ",")?;
    add_signed(text, y)
}

/// Adds the position of a pointer.
fn add_pixel(text: &mut Vec<u8>, at: Pixel) -> Result<(), AllocError>
    ensures { IfOk result (λ _. text.new.items
        ≡ text.old.items ++ (signed_decimal at.x ++ codes "," ++ signed_decimal at.y)) }
{
    add_place(text, at.x, at.y)
}

/// Adds a pointer of a device with its position, behind some words.
pub(crate) fn add_pointer(
    text: &mut Vec<u8>,
    words: &str,
    device: DeviceId,
    pointer: Pointer,
) -> Result<(), AllocError>
    ensures { IfOk result (λ _. text.new.items ≡ text.old.items ++ (words.now ++ pointer_words device pointer)) }
{
    add_device(text, words, device)?;
    add_number(text, u64::from(pointer.id.get()))?;
    add_word(text, " ")?;
    add_pixel(text, pointer.at)
}
