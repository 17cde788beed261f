//! What a window is sent for the cursor.
ghost use Rattle.std.specs.Prelude.{◌≡◌};
ghost use Rattle.cursor_core.specs.Told.{change, message};
ghost use Rattle.window_snapshot.specs.Origins.{place_from};

use input_types::{Moment, Pixel};

/// What the cursor does over a window, as Android's MotionEvent has it.
#[derive(Clone, Copy, Debug, PartialEq, Eq)]
pub enum HoverAction {
    /// It enters (`ACTION_HOVER_ENTER`).
    Enter,
    /// It moves within the window (`ACTION_HOVER_MOVE`).
    Move,
    /// It leaves (`ACTION_HOVER_EXIT`).
    Exit,
}

/// One message to a window.
#[derive(Clone, Copy, Debug, PartialEq, Eq)]
pub struct HoverMsg {
    /// The clock.
    pub moment: Moment,
    pub action: HoverAction,
    /// Where the cursor is, or for an Exit where it was last, in pixels relative to the window's own corner.
    pub at: Pixel,
}

/// What a window is sent, by whether the cursor was over it, whether it is, and whether it moved.
pub(crate) fn change(was: bool, is: bool, moved: bool) -> Option<HoverAction>
    ensures { result ≡ change was is moved }
{
    match (was, is, moved) {
        (true, true, true) => Some(HoverAction::Move),
        (true, true, false) | (false, false, _) => None,
        (true, false, _) => Some(HoverAction::Exit),
        (false, true, _) => Some(HoverAction::Enter),
    }
}

/// The message of an action to a window with its corner at `origin`.
pub(crate) fn message(moment: Moment, action: HoverAction, at: Pixel, origin: Pixel) -> HoverMsg
    ensures { result ≡ message moment action at origin }
{
    HoverMsg {
        moment,
        action,
        at: place_from(origin, at),
    }
}

/// A position relative to an origin, saturated at the ends of its type.
fn place_from(origin: Pixel, at: Pixel) -> Pixel
    ensures { result ≡ place_from origin at }
{
    Pixel {
        x: at.x.saturating_sub(origin.x),
        y: at.y.saturating_sub(origin.y),
    }
}
