//! Which windows watch for touches outside of them.
ghost use Rattle.std.specs.Prelude.{◌≡◌, ℕ};
ghost use Rattle.window_snapshot.specs.Hits.{is_watcher_at};
ghost use Rattle.window_snapshot.specs.Mask.{mask_has};
ghost use Rattle.window_snapshot.specs.Walls.{reaches};
ghost use Rattle.routing_rules.specs.Scene.{Scene};
ghost use Rattle.routing_rules.specs.Given.{changed};
ghost use Rattle.routing_rules.specs.Outgoing.{is_first};
ghost use Rattle.route_split.specs.Seen.{Sees};
ghost use Rattle.routing_rules.specs.Watching.{is_watching};

use crate::motion::changed;
use input_types::{Motion, MotionAction, Pixel};
use window_snapshot::{Reach, Snapshot};

/// The mask of the windows that are sent a motion as a touch outside if they hold none of its pointers: at the down
/// that begins a gesture, the able watchers at its position; at any other motion, none. `reach` says which windows the
/// device can reach, and `able` which channels can take input.
pub fn watchers(motion: &Motion, windows: &Snapshot, reach: &Reach, able: u64) -> u64
    ensures { (s : Scene) → Sees s windows.now reach.now able motion.now.device → (w : ℕ)
        → mask_has result w ≡ is_watching s motion.now (changed motion.now) w }
{
    if !is_first(motion.action) {
        return 0;
    }
    match changed(motion) {
        Some(pointer) => able & watchers_at(windows, pointer.at, reach),
        None => 0,
    }
}

/// The watchers at a position.
fn watchers_at(windows: &Snapshot, at: Pixel, reach: &Reach) -> u64
    ensures { (c : ℕ) → mask_has result c ≡ is_watcher_at windows.now (reaches reach.now) at.x at.y c }
{
    windows.watchers(at.x, at.y, reach)
}

/// Whether the action begins a gesture.
fn is_first(action: MotionAction) -> bool
    ensures { result ≡ is_first action }
{
    match action {
        MotionAction::Down => true,
        _ => false,
    }
}
