//! Whose window a touch goes to.
ghost use Rattle.std.specs.Prelude.{◌≡◌, ℕ, List};
ghost use Rattle.dispatch_history.specs.Effect.{Effect};
ghost use Rattle.window_snapshot.specs.Hits.{touched};
ghost use Rattle.window_snapshot.specs.Walls.{reaches};
ghost use Rattle.live_input.specs.Asking.{client_of_some};
ghost use Rattle.live_input.specs.Standing.{LiveIs};
ghost use Rattle.live_input.specs.WindowAt.{window_at};
ghost use Rattle.live_input.specs.WindowAtLaws.{TouchedLaw, ChosenLaw};

use crate::client::Client;
use crate::live::Live;
use input_types::{DisplayId, Pixel};
use window_snapshot::{Reach, Snapshot};

impl Live {
    /// The client whose window a touch at a pixel of a display goes to: that of the first window from the front which
    /// is no spy, is touchable and has the pixel in its region. None if there is no such window, or if it is a wall.
    ///
    /// The first finger of a gesture goes there, and later ones as the rules of splitting say. Spies in front of the
    /// window see the touch too. Nobody is given it while the client does not respond, or where a window of another
    /// owner blocks the window.
    pub fn window_at(&self, display: DisplayId, at: Pixel) -> Option<Client>
        ensures { (ds : List ℕ) (es : List Effect) → LiveIs ds es self.now
            → result ≡ window_at self.now.seats es display at }
    {
        let reach = Reach {
            channels: self.windows.on(display),
            display,
        };
        self.client_of_some(touched(&self.windows, at, &reach))
    }

    /// The client of a channel, if there is one.
    fn client_of_some(&self, channel: Option<u32>) -> Option<Client>
        ensures { result ≡ client_of_some self.now.seats channel }
    {
        match channel {
            Some(channel) => self.client_at(channel),
            None => None,
        }
    }
}

/// The channel of the window that a touch at a pixel goes to among those that it reaches, or the number of the walls.
fn touched(windows: &Snapshot, at: Pixel, reach: &Reach) -> Option<u32>
    ensures { result ≡ touched windows.now (reaches reach.now) at.x at.y }
{
    windows.touched(at.x, at.y, reach)
}

/// The window is the one that the routing rules call touched, on each device of the display; and they choose it for the
/// first finger of a gesture. The function does nothing.
pub fn laws()
    ensures touched { TouchedLaw }
    ensures chosen { ChosenLaw }
{}
