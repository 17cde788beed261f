//! Pointers that slip or go up, and devices that begin anew.
ghost use Rattle.std.specs.Prelude.{◌≡◌, ◌++◌, codes, decimal, true, false, IfOk};
ghost use Rattle.window_snapshot.specs.Mask.{mask_has};
ghost use Rattle.why_text.specs.Lines.{reset_word, slip_word, up_words};
ghost use Rattle.why_text.specs.Text.{line};
ghost use Rattle.why_text.specs.Words.{windows_word};

use crate::lines::line::{add_clock, add_device, add_pointer};
use crate::lines::sets::add_windows;
use input_types::{DeviceId, Moment, Pointer, PointerId};
use std::alloc::AllocError;
use text_lines::{add_labeled, add_number, add_word};

/// Adds the line of a pointer that slips from one window to another.
pub fn slip(
    text: &mut Vec<u8>,
    clock: Moment,
    device: DeviceId,
    pointer: Pointer,
    from: u32,
    to: u32,
) -> Result<(), AllocError>
    ensures { IfOk result (λ _. text.new.items
        ≡ text.old.items ++ line clock (slip_word device pointer from to)) }
{
    add_clock(text, clock)?;
    add_pointer(text, "slip ", device, pointer)?;
    add_labeled(text, " from ", u64::from(from))?;
    add_labeled(text, " to ", u64::from(to))?;
    add_word(text, "\n")
}

/// Adds the windows of a mask that lose something, and ends the line.
fn add_from(text: &mut Vec<u8>, from: u64) -> Result<(), AllocError>
    ensures { IfOk result (λ _. text.new.items
        ≡ text.old.items ++ (codes " from " ++ windows_word (mask_has from) ++ codes "\n")) }
{
    add_word(text, " from ")?;
    add_windows(text, from)?;
    add_word(text, "\n")
}

/// Adds the line of a pointer that goes up or turns out to be a palm, with the word for that.
fn add_up(
    text: &mut Vec<u8>,
    clock: Moment,
    word: &str,
    device: DeviceId,
    id: PointerId,
    held: u64,
) -> Result<(), AllocError>
    ensures { IfOk result (λ _. text.new.items
        ≡ text.old.items
        ++ line clock
        (word.now ++ decimal device ++ codes " " ++ decimal id ++ codes " from " ++ windows_word (mask_has held))) }
{
    add_clock(text, clock)?;
    add_device(text, word, device)?;
    add_number(text, u64::from(id.get()))?;
    add_from(text, held)
}

/// Adds the line of a pointer that goes up, with the mask of the windows that held it.
pub fn up(
    text: &mut Vec<u8>,
    clock: Moment,
    device: DeviceId,
    id: PointerId,
    held: u64,
) -> Result<(), AllocError>
    ensures { IfOk result (λ _. text.new.items
        ≡ text.old.items ++ line clock (up_words false device id (mask_has held))) }
{
    add_up(text, clock, "up ", device, id, held)
}

/// Adds the line of a pointer that turns out to be a palm, with the mask of the windows that held it.
pub fn palm(
    text: &mut Vec<u8>,
    clock: Moment,
    device: DeviceId,
    id: PointerId,
    held: u64,
) -> Result<(), AllocError>
    ensures { IfOk result (λ _. text.new.items
        ≡ text.old.items ++ line clock (up_words true device id (mask_has held))) }
{
    add_up(text, clock, "palm ", device, id, held)
}

/// Adds the line of a device that begins anew, with the mask of the windows that held a pointer or a key of it.
pub fn reset(
    text: &mut Vec<u8>,
    clock: Moment,
    device: DeviceId,
    held: u64,
) -> Result<(), AllocError>
    ensures { IfOk result (λ _. text.new.items
        ≡ text.old.items ++ line clock (reset_word device (mask_has held))) }
{
    add_clock(text, clock)?;
    add_word(text, "reset ")?;
    add_number(text, u64::from(device.get()))?;
    add_from(text, held)
}
