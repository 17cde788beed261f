//! The setting of the cursor.
ghost use Rattle.std.specs.Prelude.{◌≡◌, ◌≤◌};
ghost use Rattle.session_plan.specs.Valid.{IsDisplay};
ghost use Rattle.hover_text.specs.Screen.{height_of, is_upright, width_of};

use input_types::Rotation;
use session_plan::Display;

/// Whether the display is turned by none or two quarters.
fn is_upright(rotation: Rotation) -> bool
    ensures { result ≡ is_upright rotation }
{
    match rotation {
        Rotation::R0 | Rotation::R180 => true,
        Rotation::R90 | Rotation::R270 => false,
    }
}

/// The extent from left to right of a display as it is turned.
pub(crate) fn width_of(display: &Display) -> u16
    requires { IsDisplay display.now }
    ensures value { result ≡ width_of display.now }
    ensures range { (1 ≤ result) × (result ≤ 16384) }
{
    if is_upright(display.rotation) {
        display.width
    } else {
        display.height
    }
}

/// The extent from top to bottom.
pub(crate) fn height_of(display: &Display) -> u16
    requires { IsDisplay display.now }
    ensures value { result ≡ height_of display.now }
    ensures range { (1 ≤ result) × (result ≤ 16384) }
{
    if is_upright(display.rotation) {
        display.height
    } else {
        display.width
    }
}
