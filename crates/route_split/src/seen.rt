//! What the rules see before a motion of one device.
ghost use Rattle.std.specs.Prelude.{◌≡◌, ◌&&◌};
ghost use Rattle.window_snapshot.specs.Mask.{is_channel, mask_has};
ghost use Rattle.touch_state.specs.Touches.{any, holds, pilfering};

use input_types::PointerId;
use touch_state::TouchState;
use window_snapshot::{Reach, Snapshot, is_channel, mask_has};

/// What the rules see before a motion of one device.
#[derive(Clone, Copy)]
pub(crate) struct Seen<'a> {
    pub(crate) windows: &'a Snapshot,
    /// The windows that the device can reach.
    pub(crate) reach: &'a Reach,
    /// The mask of the channels that are able to take input.
    pub(crate) able: u64,
    /// What windows hold of the device.
    pub(crate) table: &'a TouchState,
}

/// Whether a window holds something.
pub(crate) fn holds_any(table: &TouchState, channel: u32) -> bool
    ensures { result ≡ any table.now channel }
{
    mask_has(table.holders(), channel)
}

/// Whether it holds this pointer.
pub(crate) fn holds_pointer(table: &TouchState, channel: u32, id: PointerId) -> bool
    ensures { result ≡ holds table.now channel id }
{
    is_channel(channel) && table.held(channel).has(id.get())
}

/// Whether a window is pilfering.
pub(crate) fn is_pilfering(table: &TouchState, channel: u32) -> bool
    ensures { result ≡ pilfering table.now channel }
{
    mask_has(table.pilfering(), channel)
}
