//! What lay over the windows.
ghost use Rattle.std.specs.Prelude.{◌≡◌, ◌==◌, ◌-◌, ◌<◌, ℕ, true, if◌then◌else◌};
ghost use Rattle.window_snapshot.specs.Mask.{mask_has};
ghost use Rattle.routing_rules.specs.Cover.{clear, flags_of};
ghost use Rattle.route_split.specs.Tables.{is_device};
ghost use Rattle.dispatcher.specs.WindowCovers.Covers.{mask_of, cover_in, bit_after, Gives};

use crate::window_covers::gift::Gift;
use input_types::{DeviceId, FLAG_OBSCURED, FLAG_PARTLY_OBSCURED};
use std::marker::Model;
use window_snapshot::{mask_has, mask_less};

/// What lay over each of the windows 1 to 64 when it was given pointers of the devices 1 to 8, since it began to hold
/// one. A window that no longer holds any keeps what it had, for the cancels that it is sent, until it is given one
/// again.
#[derive(Drop)]
pub struct Covers {
    /// For each device, starting with device 1, the windows that a window of another owner obscured.
    obscured: [u64; 8],
    /// And those that one only overlapped.
    partly: [u64; 8],
}

impl Model for Covers {
    ghost use Rattle.dispatcher.specs.WindowCovers.Covers.{CoverTable};

    ghost Value = { CoverTable };

    ghost view = { λ t. record { obscured = t.obscured; partly = t.partly } };
}

impl Covers {
    /// Nothing lies over any window.
    pub fn new() -> Covers
        ensures { (w d : ℕ) → cover_in result w d ≡ clear }
    {
        Covers {
            obscured: [0; 8],
            partly: [0; 8],
        }
    }

    /// Records that windows are given a pointer of a device. The windows of the mask `held` held something before.
    pub fn give(&mut self, gift: &Gift, held: u64)
        ensures { Gives self.old self.new gift.now held }
    {
        give_in(&mut self.obscured, gift, held, gift.obscured);
        give_in(&mut self.partly, gift, held, gift.partly);
    }

    /// The flags of the motions that a window is sent for a device, except for touches outside.
    pub fn flags(&self, window: u32, device: DeviceId) -> u32
        ensures { result ≡ flags_of (cover_in self.now window device) }
    {
        flag_where(
            mask_has(mask_at(&self.obscured, device), window),
            FLAG_OBSCURED,
        ) | flag_where(
            mask_has(mask_at(&self.partly, device), window),
            FLAG_PARTLY_OBSCURED,
        )
    }
}

/// The index of a device's mask.
fn index_of(device: DeviceId) -> usize
    ensures value { result ≡ device - 1 }
    ensures range { result < 8 }
    ensures device { is_device device ≡ true }
{
    usize::from(device.get()) - 1
}

/// The mask of a device.
fn mask_at(masks: &[u64; 8], device: DeviceId) -> u64
    ensures { result ≡ mask_of masks.now device }
{
    let place = index_of(device);
    masks[place]
}

/// Sets the mask of a device.
fn put(masks: &mut [u64; 8], device: DeviceId, mask: u64)
    ensures { (d : ℕ) → mask_of masks.new d ≡ (if d == device then mask else mask_of masks.old d) }
{
    let place = index_of(device);
    masks[place] = mask;
}

/// A flag, if it is set.
fn flag_where(set: bool, flag: u32) -> u32
    ensures { result ≡ (if set then flag else 0) }
{
    if set { flag } else { 0 }
}

/// A mask of windows, updated for windows that were given a pointer: those of the mask `found` are added.
fn after(mask: u64, given: u64, held: u64, found: u64) -> u64
    ensures { (w : ℕ) →
        mask_has result w ≡ bit_after (mask_has given w) (mask_has held w) (mask_has found w) (mask_has mask w) }
{
    let begun = mask_less(given, held);
    let kept = mask_less(mask, begun);
    kept | found
}

/// The masks of the devices after a gift.
fn give_in(masks: &mut [u64; 8], gift: &Gift, held: u64, found: u64)
    ensures { (w d : ℕ) → mask_has (mask_of masks.new d) w ≡ (if d == gift.now.device
        then bit_after (mask_has gift.now.windows w) (mask_has held w) (mask_has found w)
        (mask_has (mask_of masks.old d) w)
        else mask_has (mask_of masks.old d) w) }
{
    let was = mask_at(masks, gift.device);
    let mask = after(was, gift.windows, held, found);
    put(masks, gift.device, mask);
}
