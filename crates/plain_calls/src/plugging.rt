//! Devices that come and go.
ghost use Rattle.std.specs.Prelude.{◌≡◌, slice_get, ℕ, nat_eq, Ok};
ghost use Rattle.plain_calls.specs.Calling.{Reads, Replies, ok_of, written};
ghost use Rattle.plain_calls.specs.Driving.{TouchAdded, Removed};
ghost use Rattle.plain_calls.specs.Numbers.{display_of, moment_of, device_of};
ghost use Rattle.plain_calls.specs.Plugging.{axis_of, rotations, cook_of};
ghost use Rattle.plain_calls.specs.Replies.{add_status, args_status};
ghost use Rattle.plain_calls.specs.Layouts.{AddsKeys, layout_from};
ghost use Rattle.plain_calls.specs.Status.{no_memory};

use crate::layouts::{NoLayout, read_layout};
use crate::numbers::{device_of, display_of, moment_of};
use crate::replies::args_status;
use crate::status::{BAD_LAYOUT, BAD_SLOTS, MEMORY, OK, RANGE, TOO_MANY};
use device_reader::touch_mapper::Cook;
use input_types::{Axis, DisplayId, Rotation};
use key_layout::Layout;
use live_input::{AddRefused, Limited};
use std::alloc::Global;

/// The range of the raw positions of a panel on one axis, both ends included: `struct inputflinger_axis`.
#[repr(C)]
#[derive(Clone, Copy, Debug)]
pub struct PlainAxis {
    pub min: i32,
    pub max: i32,
}

/// How the raw positions of a panel become display pixels: `struct inputflinger_panel`.
#[repr(C)]
#[derive(Clone, Copy, Debug)]
pub struct PlainCook {
    pub x: PlainAxis,
    pub y: PlainAxis,
    /// Of the display in its natural position, in pixels: 1 to 16,384.
    pub width: u16,
    pub height: u16,
    /// How far the display is turned, in quarters: 0 to 3.
    pub rotation: u8,
}

impl PlainCook {
    /// How positions become pixels; None if a number is out of its range.
    fn read(&self) -> Option<Cook>
        ensures { result ≡ cook_of self.now }
    {
        let rotation = rotation_of(self.rotation)?;
        Cook::new(
            axis_of(&self.x),
            axis_of(&self.y),
            self.width,
            self.height,
            rotation,
        )
        .ok()
    }
}

fn axis_of(axis: &PlainAxis) -> Axis
    ensures { result ≡ axis_of axis.now }
{
    Axis {
        min: axis.min,
        max: axis.max,
    }
}

fn rotation_of(number: u8) -> Option<Rotation>
    ensures { result ≡ slice_get rotations number }
{
    let rotations = [Rotation::R0, Rotation::R90, Rotation::R180, Rotation::R270];
    rotations.get(usize::from(number)).copied()
}

/// Plugs in a panel on a display, with 1 to 16 slots. `BAD_SLOTS` for another number of slots, and `TOO_MANY` if all
/// numbers of the display are taken; `device` then stays as it was.
pub fn add_touch(
    live: &mut Limited,
    display: u8,
    slots: u8,
    cook: &PlainCook,
    device: &mut u8,
) -> u32
    ensures { Reads (display_of display) result ((live.new ≡ live.old) × (device.new ≡ device.old))
        (λ y. Reads (cook_of cook.now) result ((live.new ≡ live.old) × (device.new ≡ device.old))
        (λ c. Replies add_status result (λ r. TouchAdded y slots c live.old live.new r
        × (device.new ≡ written (λ d. d) (ok_of r) device.old)))) }
{
    let Some(display) = display_of(display) else {
        return RANGE;
    };
    let Some(cook) = cook.read() else {
        return RANGE;
    };
    match live.add_touch(display, slots, cook) {
        Ok(added) => {
            *device = added.get();
            OK
        }
        Err(AddRefused::TooMany) => TOO_MANY,
        Err(AddRefused::BadSlots) => BAD_SLOTS,
    }
}

/// Unplugs a device.
pub fn remove_device(live: &mut Limited, now_us: u64, device: u8) -> u32
    ensures { Reads (moment_of now_us) result (live.new ≡ live.old)
        (λ now. Reads (device_of device) result (live.new ≡ live.old)
        (λ d. Replies args_status result (Removed now d live.old live.new))) }
{
    let Some(now) = moment_of(now_us) else {
        return RANGE;
    };
    let Some(device) = device_of(device) else {
        return RANGE;
    };
    args_status(live.remove_device(now, device))
}

/// Plugs in a device with keys on a display, with a layout in the form of Android's `.kl` files. `BAD_LAYOUT` if the
/// text is not a layout; `line` is then its first refused line. `TOO_MANY` if all numbers of the display are taken,
/// and `MEMORY` if memory runs out. On an error `device` stays as it was.
pub fn add_keys(
    alloc: Global,
    live: &mut Limited,
    display: u8,
    text: &[u8],
    device: &mut u8,
    line: &mut u64,
) -> u32
    ensures { Reads (display_of display) result
        ((live.new ≡ live.old) × ((device.new ≡ device.old) × (line.new ≡ line.old)))
        (λ y. AddsKeys (nat_eq result no_memory) (layout_from text.now) result y live.old live.new
        device.old device.new line.old line.new) }
{
    let Some(display) = display_of(display) else {
        return RANGE;
    };
    match read_layout(alloc, text) {
        Ok(layout) => plug_in(live, display, layout, device),
        Err(NoLayout::Line(refused)) => {
            *line = refused;
            BAD_LAYOUT
        }
        Err(NoLayout::Memory) => MEMORY,
    }
}

/// Plugs in a device with keys of this layout.
fn plug_in(live: &mut Limited, display: DisplayId, layout: Layout, device: &mut u8) -> u32
    ensures { (line : ℕ) → AddsKeys (nat_eq result no_memory) (Ok layout) result display live.old live.new
        device.old device.new line line }
{
    match live.add_keys(display, layout) {
        Ok(added) => {
            *device = added.get();
            OK
        }
        Err(AddRefused::TooMany) => TOO_MANY,
        Err(AddRefused::BadSlots) => BAD_SLOTS,
    }
}
