//! Which channels may have the focus, and what a channel is sent about it.
ghost use Rattle.std.specs.Prelude.{◌≡◌, ℕ, ◌<◌, ◌≤◌, ◌&&◌};
ghost use Rattle.window_snapshot.specs.Mask.{mask_has};
ghost use Rattle.window_snapshot.specs.Named.{is_focusable_on};
ghost use Rattle.focus_resolver.specs.Resolver.{may_by};
ghost use Rattle.dispatcher.specs.KeyTables.Focused.{change_of};

use focus_resolver::Focusable;
use input_types::DisplayId;
use window_snapshot::{Snapshot, mask_has};

/// The channels that may have the focus of each display: those of a mask that have a focusable window there.
pub fn focusable(windows: &Snapshot, live: u64) -> Focusable
    ensures { (y c : ℕ) → y < 4 → may_by result.masks y c ≡ (mask_has live c && is_focusable_on windows.now y c) }
{
    Focusable {
        masks: [
            focusable_on(windows, 0, live),
            focusable_on(windows, 1, live),
            focusable_on(windows, 2, live),
            focusable_on(windows, 3, live),
        ],
    }
}

/// What a channel is sent about a focus change, by the masks of the channels that lost it and of those that gained
/// it: that it lost the focus, that it has it now, or nothing.
pub fn focus_change(lost: u64, gained: u64, channel: u32) -> Option<bool>
    ensures { result ≡ change_of lost gained channel }
{
    if mask_has(lost, channel) {
        Some(false)
    } else if mask_has(gained, channel) {
        Some(true)
    } else {
        None
    }
}

/// The channels of a mask that may have the focus of one display.
fn focusable_on(windows: &Snapshot, display: u8, live: u64) -> u64
    requires { display ≤ 3 }
    ensures { (c : ℕ) → mask_has result c ≡ (mask_has live c && is_focusable_on windows.now display c) }
{
    match DisplayId::new(display) {
        Some(display) => windows.focusable(display) & live,
        None => 0,
    }
}
