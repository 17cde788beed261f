//! What a window is sent for a device at a step.
use bits32::Bits32;
use input_types::Motion;

/// What a window is sent for a device at a step, in pixels of the device's display.
#[derive(Clone, Copy, Debug)]
pub enum Sends {
    Nothing,
    /// One motion.
    One(Motion),
    /// These of the pointers that it holds are taken from it: it is sent their cancels, at their last positions.
    Cancels { lost: Bits32 },
}
