//! The corner of a window, to which its positions are relative.
ghost use Rattle.std.specs.Prelude.{◌≡◌};
ghost use Rattle.cursor_core.specs.Calls.{corner_of};
ghost use Rattle.cursor_core.specs.Cursor.{corner_after, corner_in};

use input_types::Pixel;
use window_snapshot::Snapshot;

/// The corner of the display.
const CORNER: Pixel = Pixel { x: 0, y: 0 };

/// The corner of a channel's window, or that of the display.
fn corner_of(windows: &Snapshot, channel: u32) -> Pixel
    ensures { result ≡ corner_of windows.now channel }
{
    match windows.origin_of(channel) {
        Some(origin) => origin,
        None => CORNER,
    }
}

/// The corner of the hovered window.
pub(crate) fn corner_in(windows: &Snapshot, hovered: Option<u32>) -> Pixel
    ensures { result ≡ corner_in windows.now hovered }
{
    match hovered {
        Some(channel) => corner_of(windows, channel),
        None => CORNER,
    }
}

/// The corner of the hovered window in the later of these windows that contain it.
pub(crate) fn corner_after(later: &Snapshot, earlier: &Snapshot, hovered: Option<u32>) -> Pixel
    ensures { result ≡ corner_after later.now earlier.now hovered }
{
    match hovered {
        Some(channel) => match later.origin_of(channel) {
            Some(origin) => origin,
            None => corner_of(earlier, channel),
        },
        None => CORNER,
    }
}
