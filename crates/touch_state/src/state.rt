//! The touch state of one device.
ghost use Rattle.std.specs.Prelude.{◌≡◌, ℕ, [], true, false, ◌==◌, IsTrue, ◌↔◌};
ghost use Rattle.window_snapshot.specs.Mask.{is_channel, mask_has};
ghost use Rattle.touch_state.specs.Laws.{Agrees};
ghost use Rattle.touch_state.specs.Touches.{held, since, pilfering, holds, any, Changes, none};
ghost use Rattle.touch_state.specs.Touches.{one, of_mask, of_all, of_set, everything, nobody, IsEarliest};

use crate::row::{
    Row, began_at, empty_all, give_all, holders_of, least_since, lift_all, no_row, remove, row_at,
    slip, top_of,
};
use bits32::Bits32;
use input_types::{DeviceId, PointerId};
use std::marker::Model;
use window_snapshot::mask_with;

/// Which of the windows 1 to 64 hold which pointers of one device, since when, and which of them are pilfering it.
///
/// A window is named by the number of its channel. An index says when a step was: how many steps were before it.
#[derive(Drop)]
pub struct TouchState {
    device: DeviceId,
    /// What each window holds, starting with channel 1.
    rows: [Row; 64],
    /// The mask of the windows that hold something.
    holders: u64,
    /// The mask of those that are pilfering.
    pilferers: u64,
}

impl Model for TouchState {
    ghost use Rattle.touch_state.specs.Touches.{Touches};
    ghost use Rattle.touch_state.specs.Rows.{AreHolders};

    ghost Value = { Touches };

    ghost view = { λ t. record { device = t.device; rows = t.rows; pilferers = t.pilferers } };

    ghost invariant = { λ t. AreHolders t.rows t.holders t.pilferers };
}

impl TouchState {
    /// No window holds anything of the device.
    pub fn new(device: DeviceId) -> TouchState
        ensures device { result.device ≡ device }
        ensures agrees { Agrees result [] device }
        ensures held { (w : ℕ) → held result w ≡ 0 }
        ensures since { (w : ℕ) → since result w ≡ 0 }
        ensures pilfering { (w : ℕ) → pilfering result w ≡ false }
    {
        TouchState {
            device,
            rows: [no_row(); 64],
            holders: 0,
            pilferers: 0,
        }
    }

    /// The device.
    pub fn device(&self) -> DeviceId
        ensures { result ≡ self.now.device }
    {
        self.device
    }

    /// A pointer goes down, at an index, in each window of a mask.
    pub fn down(&mut self, id: PointerId, to: u64, place: u64)
        ensures { Changes self.old self.new (of_mask to id) none place nobody }
    {
        let held = top_of(self.holders);
        let given = top_of(to);
        let top = held.max(given);
        give_all(&mut self.rows, to, id, place, top);
        self.holders = holders_of(&self.rows, top);
        self.pilferers &= self.holders;
    }

    /// A pointer slips from one window to another, at an index.
    pub fn moved(&mut self, id: PointerId, from: u32, to: u32, place: u64)
        requires from_is { is_channel from ≡ true }
        requires to_is { is_channel to ≡ true }
        ensures { Changes self.old self.new (one to id) (one from id) place nobody }
    {
        slip(&mut self.rows, from, to, id, place);
        self.holders = holders_of(&self.rows, 64);
        self.pilferers &= self.holders;
    }

    /// A pointer goes up in every window.
    pub fn up(&mut self, id: PointerId)
        ensures { (place : ℕ) → Changes self.old self.new none (of_all id) place nobody }
    {
        let top = top_of(self.holders);
        lift_all(&mut self.rows, id, top);
        self.holders = holders_of(&self.rows, top);
        self.pilferers &= self.holders;
    }

    /// These pointers are taken from a window.
    pub fn lose(&mut self, channel: u32, ids: Bits32)
        requires { is_channel channel ≡ true }
        ensures { (place : ℕ) → Changes self.old self.new none (of_set channel ids) place nobody }
    {
        remove(&mut self.rows, channel, ids);
        self.holders = holders_of(&self.rows, 64);
        self.pilferers &= self.holders;
    }

    /// All pointers are taken from every window.
    pub fn reset(&mut self)
        ensures { (place : ℕ) → Changes self.old self.new none everything place nobody }
    {
        empty_all(&mut self.rows);
        self.holders = 0;
        self.pilferers = 0;
    }

    /// The window, which holds something, pilfers the device.
    pub fn start_pilfer(&mut self, channel: u32)
        requires channel { is_channel channel ≡ true }
        requires holds { any self.old channel ≡ true }
        ensures { (place : ℕ) → Changes self.old self.new none none place (λ w. w == channel) }
    {
        self.pilferers = mask_with(self.pilferers, channel);
    }

    /// The ids of the pointers that a window holds.
    pub fn held(&self, channel: u32) -> Bits32
        requires { is_channel channel ≡ true }
        ensures { result ≡ held self.now channel }
    {
        row_at(&self.rows, channel).ids
    }

    /// The index of the step at which a window last went from holding nothing to holding something.
    pub fn since(&self, channel: u32) -> u64
        requires { is_channel channel ≡ true }
        ensures { result ≡ since self.now channel }
    {
        row_at(&self.rows, channel).since
    }

    /// The mask of the windows that hold something. The others do not pilfer.
    pub fn holders(&self) -> u64
        ensures mask { (w : ℕ) → mask_has result w ≡ any self.now w }
        ensures pilferers { (w : ℕ) → pilfering self.now w ≡ true → any self.now w ≡ true }
    {
        self.holders
    }

    /// The mask of the windows that are pilfering.
    pub fn pilfering(&self) -> u64
        ensures { (w : ℕ) → mask_has result w ≡ pilfering self.now w }
    {
        self.pilferers
    }

    /// The mask of the holders in a mask that began at the least index.
    pub fn earliest(&self, among: u64) -> u64
        ensures { (w : ℕ) → IsTrue (mask_has result w) ↔ IsEarliest self.now among w }
    {
        let hits = self.holders & among;
        match least_since(&self.rows, hits) {
            Some(place) => began_at(&self.rows, hits, place),
            None => 0,
        }
    }
}
