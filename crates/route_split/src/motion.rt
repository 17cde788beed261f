//! What a motion gives and takes.
ghost use Rattle.std.specs.Prelude.{◌≡◌, ℕ, List};
ghost use Rattle.routing_rules.specs.Pairs.{has};
ghost use Rattle.routing_rules.specs.Taking.{Nothing};
ghost use Rattle.routing_rules.specs.Choice.{takers};
ghost use Rattle.touch_state.specs.Touches.{Touches as Table};
ghost use Rattle.routing_rules.specs.Given.{changed, pairs};
ghost use Rattle.route_split.specs.Seen.{scene_at};
ghost use Rattle.route_split.specs.Marking.{gives, taking, IsWhole, IsMotionMark};

use crate::choice::takers;
use crate::mark::Mark;
use crate::seen::Seen;
use crate::slip::slip_of;
use input_types::{DeviceId, Motion, MotionAction, Pointer};

/// The pointer that goes down or up with a motion, or the first one of a move.
pub(crate) fn changed(motion: &Motion) -> Option<Pointer>
    ensures { result ≡ changed motion.now }
{
    motion.pointers.get(usize::from(motion.index))
}

/// The mark of a pointer that goes down.
fn give(seen: &Seen, device: DeviceId, pointer: Pointer) -> Mark
    ensures gives { let s = scene_at seen.now in (w d i : ℕ)
        → has (pairs device pointer.id (takers s device pointer.at)) w d i ≡ gives result w d i }
    ensures takes { (ts : List Table) → Nothing ≡ taking ts result }
    ensures whole { IsWhole result }
{
    Mark::Give {
        device,
        id: pointer.id,
        windows: takers(seen, device, pointer.at),
    }
}

/// The mark of a motion.
pub(crate) fn mark_of(seen: &Seen, motion: &Motion) -> Mark
    ensures { IsMotionMark (scene_at seen.now) motion.now result }
{
    let device = motion.device;
    let Some(pointer) = changed(motion) else {
        return Mark::NoOp;
    };
    match motion.action {
        MotionAction::Down | MotionAction::PointerDown => give(seen, device, pointer),
        MotionAction::Up | MotionAction::PointerUp | MotionAction::Cancel => Mark::Lift {
            device,
            id: pointer.id,
        },
        MotionAction::Move => match slip_of(seen, motion) {
            Some(way) => Mark::Slip {
                device,
                id: pointer.id,
                from: way.from,
                to: way.to,
            },
            None => Mark::NoOp,
        },
        MotionAction::Outside => Mark::NoOp,
    }
}
