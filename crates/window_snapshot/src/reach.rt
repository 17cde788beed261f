//! Which windows a motion can reach.
ghost use Rattle.std.specs.Prelude.{◌≡◌};
ghost use Rattle.window_snapshot.specs.Walls.{reaches, wall_on};

use crate::mask::mask_has;
use input_types::DisplayId;

/// The number that stands for the channel in the walls of a display: windows that take touches as others do, and whose
/// touches nobody gets. It is above 64, so it is no channel's.
pub fn wall_on(display: DisplayId) -> u32
    ensures { result ≡ wall_on display }
{
    65 + u32::from(display.get())
}

/// The windows that a motion can reach: those of these channels, and the walls of this display.
#[derive(Clone, Copy, Debug, PartialEq, Eq)]
pub struct Reach {
    /// The mask of the channels.
    pub channels: u64,
    /// The display of the walls.
    pub display: DisplayId,
}

impl Reach {
    /// Whether the windows with this number in place of the channel are among them.
    pub fn has(&self, channel: u32) -> bool
        ensures { result ≡ reaches self.now channel }
    {
        mask_has(self.channels, channel) || channel == wall_on(self.display)
    }
}
