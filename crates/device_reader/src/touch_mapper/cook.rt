//! Raw positions as display pixels.
ghost use Rattle.std.specs.Prelude.{◌≡◌, ◌*◌, ◌/◌, ◌<◌, ◌≤◌, ◌↔◌, ◌≤ℤ◌, IsTrue, IfOk, IsOk, ◌&&◌, int_le, nat_le, pos};
ghost use Rattle.device_reader.specs.TouchMapper.Cooking.{can_cook, natural};

use input_types::{Axis, Pixel, Rotation};
use std::marker::Model;

/// An axis whose greatest position is below its least, or a display with an extent that is not 1 to 16,384 pixels.
#[derive(Clone, Copy, Debug, PartialEq, Eq)]
pub struct BadRange;

/// How the raw positions of a touch device become display pixels.
///
/// Contracts see its axes, the natural extent of the display, and its rotation.
#[derive(Clone, Copy, Debug, PartialEq, Eq)]
pub struct Cook {
    x: Axis,
    y: Axis,
    width: u16,
    height: u16,
    rotation: Rotation,
}

impl Model for Cook {
    ghost use Rattle.device_reader.specs.TouchMapper.Cooking.{Cooking, CanCook};

    ghost Value = { Cooking };

    ghost view = { λ c. record { x = c.x; y = c.y; width = c.width; height = c.height; rotation = c.rotation } };

    ghost invariant = { λ c. CanCook c.x c.y c.width c.height };

    ghost inverse = { λ c. record { x = c.x; y = c.y; width = c.width; height = c.height; rotation = c.rotation } };
}

impl Cook {
    ghost use Rattle.device_reader.specs.TouchMapper.Cooking.{pixel};

    /// The greatest width or height of a display, in pixels.
    pub const MAX_EXTENT: u16 = 16_384;

    /// The axes of a device, the width and height of its display in its natural position, and how far the display is
    /// turned.
    ///
    /// `BadRange` comes exactly if an axis has its greatest position below its least, or if the width or the height is
    /// not 1 to 16,384.
    pub fn new(
        x: Axis,
        y: Axis,
        width: u16,
        height: u16,
        rotation: Rotation,
    ) -> Result<Cook, BadRange>
        ensures variant { IsOk result ↔ IsTrue (can_cook x y width height) }
        ensures value { IfOk result (λ c. c
            ≡ record { x = x; y = y; width = width; height = height; rotation = rotation }) }
    {
        if is_axis(&x) && is_axis(&y) && is_extent(width) && is_extent(height) {
            Ok(Cook {
                x,
                y,
                width,
                height,
                rotation,
            })
        } else {
            Err(BadRange)
        }
    }

    /// The display pixel of a raw position, which counts as the nearest one of the device's axes.
    ///
    /// The formula is this project's own choice: each axis is cut into as many equal parts as the display has pixels
    /// there. It holds for all axes of 32-bit numbers.
    pub fn pixel(&self, x: i32, y: i32) -> Pixel
        ensures { result ≡ pixel self.now x y }
    {
        let nx = place(&self.x, self.width, x);
        let ny = place(&self.y, self.height, y);
        match self.rotation {
            Rotation::R0 => at(nx, ny),
            Rotation::R90 => at(ny, self.width - 1 - nx),
            Rotation::R180 => at(self.width - 1 - nx, self.height - 1 - ny),
            Rotation::R270 => at(self.height - 1 - ny, nx),
        }
    }
}

/// Whether an axis has a position.
fn is_axis(axis: &Axis) -> bool
    ensures { result ≡ int_le axis.now.min axis.now.max }
{
    axis.min <= axis.max
}

/// Whether a display may be so wide or high.
fn is_extent(extent: u16) -> bool
    ensures { result ≡ (nat_le 1 extent && nat_le extent 16384) }
{
    1 <= extent && extent <= Cook::MAX_EXTENT
}

/// The place of a raw position on an axis of the display in its natural position.
fn place(axis: &Axis, extent: u16, raw: i32) -> u16
    requires axis { axis.now.min ≤ℤ axis.now.max }
    requires extent { (1 ≤ extent) × (extent ≤ 16384) }
    ensures value { result ≡ natural axis.now extent raw }
    ensures within { result < extent }
{
    let above = u64::from(raw.clamp(axis.min, axis.max).abs_diff(axis.min));
    let positions = u64::from(axis.max.abs_diff(axis.min)) + 1;
    share(above, extent, positions)
}

/// The pixel of a raw position, given how many of the axis' positions are below it. Most axes have as many positions as
/// the display has pixels, and then nothing is divided.
#[inline(always)]
#[tactic(auto, using(crate::proofs::TouchMapper::Shares::share_less, crate::proofs::TouchMapper::Shares::share_same))]
fn share(below: u64, extent: u16, positions: u64) -> u16
    requires below { below < positions }
    requires positions { positions ≤ 4294967296 }
    requires extent { (1 ≤ extent) × (extent ≤ 16384) }
    ensures value { result ≡ below * extent / positions }
    ensures within { result < extent }
{
    if positions == u64::from(extent) {
        return below as u16;
    }
    (below * u64::from(extent) / positions) as u16
}

/// The pixel at a place of the display.
fn at(x: u16, y: u16) -> Pixel
    ensures { result ≡ record { x = pos x; y = pos y } }
{
    Pixel {
        x: i32::from(x),
        y: i32::from(y),
    }
}
