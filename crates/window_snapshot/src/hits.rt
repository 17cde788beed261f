//! Whom a touch at a point concerns.
ghost use Rattle.std.specs.Prelude.{◌≡◌, ℕ, filter};
ghost use Rattle.std.specs.List.{position};
ghost use Rattle.std.specs.Option.{option_copied};
ghost use Rattle.window_snapshot.specs.Hits.{touched, touched_window, is_spy_at, is_watcher_at, takes_touch, spies_touch, watches};
ghost use Rattle.window_snapshot.specs.Mask.{mask_has};
ghost use Rattle.window_snapshot.specs.MaskOf.{mask_of};
ghost use Rattle.window_snapshot.specs.Walls.{reaches};

use crate::mask::mask_with;
use crate::reach::Reach;
use crate::snapshot::Snapshot;
use crate::window::Window;

impl Snapshot {
    /// The channel of the touched window at a point of the display, or the number of its walls: the first from the
    /// front that is no spy, is touchable, can be reached and has the point in its region.
    pub fn touched(&self, x: i32, y: i32, reach: &Reach) -> Option<u32>
        ensures { result ≡ touched self.now (reaches reach.now) x y }
    {
        match touched_window(self.windows(), x, y, reach) {
            Some(window) => Some(window.channel),
            None => None,
        }
    }

    /// The mask of the spies at a point of the display: the windows with SPY that are touchable, can be reached,
    /// have the point in their region, and stand in front of the touched window, or anywhere where nothing
    /// is touched.
    pub fn spies(&self, x: i32, y: i32, reach: &Reach) -> u64
        ensures { (c : ℕ) → mask_has result c ≡ is_spy_at self.now (reaches reach.now) x y c }
    {
        let windows = self.windows();
        match touched_place(windows, x, y, reach) {
            Some(place) => spy_mask(windows.split_at(place).0, x, y, reach),
            None => spy_mask(windows, x, y, reach),
        }
    }

    /// The mask of the watchers at a point of the display: the windows with WATCH_OUTSIDE_TOUCH that can be
    /// reached and stand in front of the touched window. Nobody watches where nothing is touched. The region of
    /// a watcher does not matter.
    pub fn watchers(&self, x: i32, y: i32, reach: &Reach) -> u64
        ensures { (c : ℕ) → mask_has result c ≡ is_watcher_at self.now (reaches reach.now) x y c }
    {
        let windows = self.windows();
        match touched_place(windows, x, y, reach) {
            Some(place) => watcher_mask(windows.split_at(place).0, reach),
            None => 0,
        }
    }
}

/// The touched window.
fn touched_window<'a>(windows: &'a [Window], x: i32, y: i32, reach: &Reach) -> Option<&'a Window>
    ensures { option_copied result ≡ touched_window windows.now (reaches reach.now) x y }
{
    windows
        .iter()
        .find(|window| takes_touch(window, x, y, reach))
}

/// The place of the touched window.
fn touched_place(windows: &[Window], x: i32, y: i32, reach: &Reach) -> Option<usize>
    ensures { result ≡ position (takes_touch (reaches reach.now) x y) windows.now }
{
    windows
        .iter()
        .position(|window| takes_touch(window, x, y, reach))
}

/// Whether the window takes a touch there from those behind it.
fn takes_touch(window: &Window, x: i32, y: i32, reach: &Reach) -> bool
    ensures { result ≡ takes_touch (reaches reach.now) x y window.now }
{
    !window.is_spy() && window.is_hit(x, y, reach)
}

/// Whether the window is a spy that the point hits.
fn spies_touch(window: &Window, x: i32, y: i32, reach: &Reach) -> bool
    ensures { result ≡ spies_touch (reaches reach.now) x y window.now }
{
    window.is_spy() && window.is_hit(x, y, reach)
}

/// Whether the window can be reached and watches touches outside of it.
fn watches(window: &Window, reach: &Reach) -> bool
    ensures { result ≡ watches (reaches reach.now) window.now }
{
    window.watches_outside() && reach.has(window.channel)
}

/// The mask of those of these windows that are spies hit by the point.
fn spy_mask(windows: &[Window], x: i32, y: i32, reach: &Reach) -> u64
    ensures { result ≡ mask_of (filter (spies_touch (reaches reach.now) x y) windows.now) }
{
    windows
        .iter()
        .filter(|window| spies_touch(window, x, y, reach))
        .fold(0, |mask, window| mask_with(mask, window.channel))
}

/// The mask of those of these windows that can be reached and watch.
fn watcher_mask(windows: &[Window], reach: &Reach) -> u64
    ensures { result ≡ mask_of (filter (watches (reaches reach.now)) windows.now) }
{
    windows
        .iter()
        .filter(|window| watches(window, reach))
        .fold(0, |mask, window| mask_with(mask, window.channel))
}
