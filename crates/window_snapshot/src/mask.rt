//! Sets of channels as the bits of a number.
ghost use Rattle.std.specs.Prelude.{◌≡◌, ℕ, ◌<◌, ◌≤◌, ◌&&◌, ◌==◌, not, true};
ghost use Rattle.window_snapshot.specs.Mask.{is_channel, mask_has, mask_less, mask_with};

/// Whether a number is that of a channel: 1 to 64.
pub fn is_channel(channel: u32) -> bool
    ensures { result ≡ is_channel channel }
{
    0 < channel && channel <= 64
}

/// Whether the mask has the channel. A number outside 1 to 64 is in no mask.
pub fn mask_has(mask: u64, channel: u32) -> bool
    ensures { result ≡ mask_has mask channel }
{
    is_channel(channel) && (mask >> (channel - 1)) & 1 == 1
}

/// The bit of a channel, or 0 for a number outside 1 to 64.
fn bit_of(channel: u32) -> u64
    ensures { result ≡ mask_with 0 channel }
{
    if is_channel(channel) {
        1 << (channel - 1)
    } else {
        0
    }
}

/// The mask with a channel added. A number outside 1 to 64 leaves it as it is.
pub fn mask_with(mask: u64, channel: u32) -> u64
    ensures { result ≡ mask_with mask channel }
{
    mask | bit_of(channel)
}

/// The mask without the channels of another one.
pub fn mask_less(mask: u64, other: u64) -> u64
    ensures value { result ≡ mask_less mask other }
    ensures channels { (c : ℕ) → mask_has result c ≡ (not (mask_has other c) && mask_has mask c) }
{
    mask & !other
}

/// The mask without a channel. A number outside 1 to 64 leaves it as it is.
pub fn mask_without(mask: u64, channel: u32) -> u64
    ensures value { result ≡ mask_less mask (mask_with 0 channel) }
    ensures channels { (c : ℕ) → mask_has result c ≡ (not (c == channel) && mask_has mask c) }
{
    mask_less(mask, mask_with(0, channel))
}

/// The first channel of a mask that is not 0.
pub fn mask_first(mask: u64) -> u32
    requires { 0 < mask }
    ensures has { mask_has mask result ≡ true }
    ensures first { (c : ℕ) → mask_has mask c ≡ true → result ≤ c }
    ensures range { (1 ≤ result) × (result ≤ 64) }
{
    mask.trailing_zeros() + 1
}
