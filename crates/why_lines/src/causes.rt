//! The causes of a pointer that goes down, from the tables of who holds what.
//!
//! Two windows stand side by side, 1 on the left and 2 on the right. A finger is down on the left one, and a second one
//! goes down on the right one, while the owner of channel 2 does not respond:
//!
//! ```text
//! touched 2   row split   chosen 2   spies {}   pilfering {}   given {}   mute {2}   outside {}   blocked {}
//! ```
ghost use Rattle.std.specs.Prelude.{◌≡◌, ◌&&◌, ℕ};
ghost use Rattle.window_snapshot.specs.Hits.{is_spy_at, touched};
ghost use Rattle.window_snapshot.specs.Mask.{mask_has};
ghost use Rattle.window_snapshot.specs.Occlusion.{is_blocked_at};
ghost use Rattle.window_snapshot.specs.Walls.{reaches};
ghost use Rattle.routing_rules.specs.Choice.{is_candidate_of};
ghost use Rattle.routing_rules.specs.Scene.{Scene};
ghost use Rattle.why_text.specs.Down.{down_of, targets};
ghost use Rattle.why_lines.specs.Causes.{AreCauses, Comes, Has, IsSeen};

use crate::blocking::Blocked;
use crate::lines::Causes;
use crate::sight::Sight;
use input_types::{DeviceId, Motion, Pixel, Pointer};
use route_split::watchers;
use window_snapshot::{mask_less, mask_with};

/// The channel of the window under a place, or the number of the walls, where there is one.
fn touched_at(sight: &Sight, at: Pixel) -> Option<u32>
    ensures { result ≡ touched sight.now.windows.now (reaches sight.now.reach) at.x at.y }
{
    sight.windows.touched(at.x, at.y, &sight.reach)
}

/// The mask of the spies at a place.
fn spies_at(sight: &Sight, at: Pixel) -> u64
    ensures { (c : ℕ) → mask_has result c
        ≡ is_spy_at sight.now.windows.now (reaches sight.now.reach) at.x at.y c }
{
    sight.windows.spies(at.x, at.y, &sight.reach)
}

/// Of the windows of a mask, those that are blocked at a place.
fn blocked_at(sight: &Sight, at: Pixel, among: u64) -> u64
    ensures { (c : ℕ) → mask_has result c
        ≡ (mask_has among c && is_blocked_at sight.now.windows.now (reaches sight.now.reach) at.x at.y c) }
{
    sight.windows.blocked(at.x, at.y, &sight.reach, among)
}

/// The mask of the candidates: the chosen window and the spies.
fn candidates(chosen: Option<u32>, spies: u64) -> u64
    ensures { Has result (is_candidate_of chosen (mask_has spies)) }
{
    match chosen {
        Some(window) => mask_with(spies, window),
        None => spies,
    }
}

/// The mask of the candidates that are pilfering the device.
fn pilfering(sight: &Sight, device: DeviceId, chosen: Option<u32>, spies: u64) -> u64
    ensures { (s : Scene) → IsSeen s device sight.now
        → Has result (λ w. is_candidate_of chosen (mask_has spies) w && s.pilfering w device) }
{
    candidates(chosen, spies) & sight.touches.pilfering(device)
}

/// The mask of the targets.
fn target_mask(sight: &Sight, motion: &Motion, pointer: &Pointer) -> u64
    ensures { (s : Scene) → IsSeen s motion.now.device sight.now → Has result (targets s motion.now pointer.now) }
{
    sight.touches.targets(
        motion.device,
        pointer.at,
        sight.windows,
        &sight.reach,
        sight.able,
    )
}

/// The causes of a pointer that goes down with a motion: those of the rules, with sets of windows as masks.
pub fn down_causes<'a>(sight: &'a Sight<'a>, motion: &Motion, pointer: &Pointer) -> Causes<'a>
    ensures { (s : Scene) → IsSeen s motion.now.device sight.now → Comes s motion.now pointer.now
        → AreCauses result (down_of s motion.now pointer.now) }
{
    let device = motion.device;
    let at = pointer.at;
    let windows = sight.windows;
    let choice = sight
        .touches
        .choice(device, at, windows, &sight.reach, sight.able);
    let spies = spies_at(sight, at);
    let targets = target_mask(sight, motion, pointer);
    let able = targets & sight.able;
    let blocked = blocked_at(sight, at, able);
    let given = mask_less(able, blocked);
    Causes {
        touched: touched_at(sight, at),
        choice,
        spies,
        pilfering: pilfering(sight, device, choice.window, spies),
        given,
        mute: mask_less(targets, sight.able),
        outside: mask_less(watchers(motion, windows, &sight.reach, sight.able), given),
        blocked: Blocked {
            mask: blocked,
            windows,
            reach: &sight.reach,
            at,
        },
    }
}
