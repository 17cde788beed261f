//! Which windows of other owners block a window at a position.
ghost use Rattle.std.specs.Prelude.{◌≡◌};
ghost use Rattle.why_lines.specs.Causes.{Has, blocked_by, walled_by};

use input_types::Pixel;
use window_snapshot::{Reach, Snapshot};

/// The windows that are blocked at a position, and what finds the windows that block each of them.
#[derive(Clone, Copy)]
pub struct Blocked<'a> {
    /// The mask of the blocked windows.
    pub mask: u64,
    pub windows: &'a Snapshot,
    /// The windows that the device can reach.
    pub reach: &'a Reach,
    pub at: Pixel,
}

/// Whether a wall blocks the window of a channel.
pub(crate) fn is_walled(blocked: &Blocked, channel: u32) -> bool
    ensures { result ≡ walled_by blocked.now channel }
{
    let at = blocked.at;
    blocked
        .windows
        .is_walled(at.x, at.y, blocked.reach, channel)
}

/// The mask of the windows that block the window of a channel.
pub(crate) fn blockers(blocked: &Blocked, channel: u32) -> u64
    ensures { Has result (blocked_by blocked.now channel) }
{
    let at = blocked.at;
    blocked.windows.blockers(at.x, at.y, blocked.reach, channel)
}
