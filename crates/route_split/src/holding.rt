//! Which windows hold a pointer.
ghost use Rattle.std.specs.Prelude.{◌≡◌, ◌==◌, ◌&&◌, ◌||◌, ℕ, true};
ghost use Rattle.window_snapshot.specs.Mask.{is_channel, mask_has};
ghost use Rattle.touch_state.specs.Touches.{holds};

use crate::seen::holds_pointer;
use input_types::PointerId;
use touch_state::TouchState;
use window_snapshot::mask_with;

/// The mask of the windows that hold a pointer.
pub(crate) fn holding(table: &TouchState, id: PointerId) -> u64
    ensures { (w : ℕ) → mask_has result w ≡ holds table.now w id }
{
    let mut mask = 0;
    for k in 0..64 {
        mask = with_one(mask, k + 1, holds_pointer(table, k + 1, id));
    }
    mask
}

/// The mask, with a window added if it holds the pointer.
fn with_one(mask: u64, channel: u32, hit: bool) -> u64
    requires { is_channel channel ≡ true }
    ensures { (w : ℕ) → mask_has result w ≡ (mask_has mask w || (w == channel && hit)) }
{
    if hit { mask_with(mask, channel) } else { mask }
}
