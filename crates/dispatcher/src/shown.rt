//! The windows that are shown, and the origin of each channel's window.
ghost use Rattle.std.specs.Prelude.{◌≡◌, ◌≤◌, ℕ, [], ◌∷◌, replicate};
ghost use Rattle.std.specs.List.{list_any};
ghost use Rattle.window_snapshot.specs.Origins.{corner};
ghost use Rattle.window_snapshot.specs.Window.{is_slippery};
ghost use Rattle.dispatcher.specs.Shown.{origin_at};
ghost use Rattle.dispatcher.specs.Showing.{Shows, origins_from};

use input_types::Pixel;
use std::alloc::Global;
use std::marker::Model;
use window_snapshot::{Snapshot, Window, is_channel};

/// The last snapshot, and for each of the channels 1 to 64 the origin of its window in the last snapshot that listed
/// it.
#[derive(Drop)]
pub(crate) struct Shown {
    windows: Snapshot,
    /// Whether one of the windows is slippery.
    slips: bool,
    /// The origins, from channel 1 on.
    origins: [Pixel; 64],
}

impl Model for Shown {
    ghost use Rattle.std.specs.Prelude.{◌≡◌};
    ghost use Rattle.std.specs.List.{list_any};
    ghost use Rattle.window_snapshot.specs.Window.{is_slippery};
    ghost use Rattle.dispatcher.specs.Shown.{Shown as Kept};

    ghost Value = { Kept };

    ghost view = { λ s. record { windows = s.windows; origins = s.origins } };

    ghost invariant = { λ s. s.slips ≡ list_any is_slippery s.windows };
}

impl Shown {
    /// No windows, and all origins in the corner of the display.
    pub(crate) fn new(alloc: Global) -> Shown
        ensures { result ≡ record { windows = []; origins = replicate 64 corner } }
    {
        Shown {
            windows: Snapshot::empty(alloc),
            slips: false,
            origins: corners(),
        }
    }

    pub(crate) fn windows(&self) -> &Snapshot
        ensures { result.now ≡ self.now.windows }
    {
        &self.windows
    }

    /// Whether one of the windows is slippery.
    pub(crate) fn slips(&self) -> bool
        ensures { result ≡ list_any is_slippery self.now.windows }
    {
        self.slips
    }

    pub(crate) fn origins(&self) -> &[Pixel; 64]
        ensures { result.now ≡ self.now.origins }
    {
        &self.origins
    }

    /// Shows other windows. The windows that they list have their origins from now on.
    pub(crate) fn show(&mut self, windows: Snapshot)
        ensures { Shows windows self.old self.new }
    {
        move_origins(&mut self.origins, windows.windows());
        self.slips = has_slippery(windows.windows());
        self.windows = windows;
    }
}

/// Whether one of these windows is slippery.
fn has_slippery(windows: &[Window]) -> bool
    ensures { result ≡ list_any is_slippery windows.now }
{
    windows.iter().any(|window| window.is_slippery())
}

/// The corner of the display for each channel.
fn corners() -> [Pixel; 64]
    ensures { result ≡ replicate 64 corner }
{
    [Pixel { x: 0, y: 0 }; 64]
}

/// Moves the origins of the channels of these windows. If a channel has two windows, the first counts.
fn move_origins(origins: &mut [Pixel; 64], windows: &[Window])
    ensures { (w : ℕ) → 1 ≤ w → w ≤ 64
        → origin_at origins.new w ≡ origins_from windows.now w (origin_at origins.old w) }
{
    let mut left = windows.len();
    'windows: while left > 0 {
        left -= 1;
        move_origin(origins, &windows[left]);
    }
}

/// Moves the origin of a window's channel.
fn move_origin(origins: &mut [Pixel; 64], window: &Window)
    ensures { (w : ℕ) → 1 ≤ w → w ≤ 64
        → origin_at origins.new w ≡ origins_from (window.now ∷ []) w (origin_at origins.old w) }
{
    if is_channel(window.channel) {
        origins[window.channel as usize - 1] = Pixel {
            x: window.frame.left,
            y: window.frame.top,
        };
    }
}
