//! Which windows a step can concern.
ghost use Rattle.std.specs.Prelude.{◌≡◌, ℕ, ◌&&◌};
ghost use Rattle.window_snapshot.specs.Mask.{mask_has};
ghost use Rattle.route_split.specs.Marking.{is_given_some};

use crate::mark::Mark;
use crate::marking::alone;
use input_types::DeviceId;

/// The mask of the windows that are given a pointer of a device with this mark.
pub fn given_windows(mark: &Mark, device: DeviceId) -> u64
    ensures { (w : ℕ) → mask_has result w ≡ is_given_some mark.now w device }
{
    match *mark {
        Mark::Give {
            device: of,
            id: _,
            windows,
        } => mask_where(device == of, windows),
        Mark::Slip {
            device: of,
            id: _,
            from: _,
            to,
        } => mask_where(device == of, alone(to)),
        _ => 0,
    }
}

/// The mask if it counts, and otherwise the empty mask.
fn mask_where(hit: bool, mask: u64) -> u64
    ensures { (w : ℕ) → mask_has result w ≡ (hit && mask_has mask w) }
{
    if hit { mask } else { 0 }
}
