//! The channels of a mask, one by one.
ghost use Rattle.std.specs.Prelude.{◌≡◌, true, ◌≤◌, ◌<◌};
ghost use Rattle.window_snapshot.specs.Mask.{mask_has, mask_with};
ghost use Rattle.dispatcher.specs.DispatchTables.Masks.{mask_less};

use window_snapshot::mask_with;

/// Some channel of a mask that is not 0.
pub fn first_of(mask: u64) -> u32
    requires { 0 < mask }
    ensures has { mask_has mask result ≡ true }
    ensures from { 1 ≤ result }
    ensures to { result ≤ 64 }
{
    mask.trailing_zeros() + 1
}

/// The mask without the channels of another one.
pub(crate) fn less(mask: u64, other: u64) -> u64
    ensures { result ≡ mask_less mask other }
{
    mask & !other
}

/// The mask without a channel.
pub fn without(mask: u64, channel: u32) -> u64
    ensures { result ≡ mask_less mask (mask_with 0 channel) }
{
    less(mask, mask_with(0, channel))
}
