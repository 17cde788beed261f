//! Ranges of raw positions, rotations and pixels.

/// The range of raw positions of a touch device on one axis, both ends included.
#[derive(Clone, Copy, Debug, PartialEq, Eq)]
pub struct Axis {
    pub min: i32,
    pub max: i32,
}

/// How far the display is turned from its natural position, in degrees, as Android's `Surface.ROTATION_90` and its kin.
#[derive(Clone, Copy, Debug, PartialEq, Eq)]
pub enum Rotation {
    R0,
    R90,
    R180,
    R270,
}

/// A position in pixels, `x` to the right and `y` down. Each use says whether it is relative to the corner of the
/// display or of a window.
#[derive(Clone, Copy, Debug, PartialEq, Eq)]
pub struct Pixel {
    pub x: i32,
    pub y: i32,
}
