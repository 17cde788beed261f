//! A motion that is dispatched: a pointer goes down or up, or it slips.
ghost use Rattle.std.specs.Prelude.{◌≡◌, ◌++◌, Some, IfOk};
ghost use Rattle.routing_rules.specs.Given.{changed};
ghost use Rattle.routing_rules.specs.Scene.{Scene};
ghost use Rattle.routing_rules.specs.Slip.{slip};
ghost use Rattle.routing_rules.specs.Outgoing.{is_cancelled, is_down, is_up};
ghost use Rattle.why_text.specs.Down.{down_of};
ghost use Rattle.why_text.specs.Lines.{down_words, motion_words, slip_words, up_words};
ghost use Rattle.why_text.specs.Text.{line};
ghost use Rattle.why_lines.specs.Causes.{Comes, IsSeen};
ghost use Rattle.why_lines.specs.Coming.{MayCome};
ghost use Rattle.why_lines.specs.Growing.{with_lines};

use crate::causes::down_causes;
use crate::lines::{down, palm, slip, up};
use crate::sight::Sight;
use input_types::{FLAG_CANCELED, Moment, Motion, MotionAction, Pointer, PointerId};
use std::alloc::AllocError;

/// The pointer that goes down or up with a motion, and the first one of a move.
fn changed(motion: &Motion) -> Option<Pointer>
    ensures { result ≡ changed motion.now }
{
    motion.pointers.get(usize::from(motion.index))
}

/// Whether a pointer goes down with an action.
fn is_down(action: MotionAction) -> bool
    ensures { result ≡ is_down action }
{
    match action {
        MotionAction::Down | MotionAction::PointerDown => true,
        _ => false,
    }
}

/// Whether a pointer goes up with an action.
fn is_up(action: MotionAction) -> bool
    ensures { result ≡ is_up action }
{
    match action {
        MotionAction::Up | MotionAction::PointerUp | MotionAction::Cancel => true,
        _ => false,
    }
}

/// Whether the pointer that goes up with a motion is cancelled.
fn is_cancelled(action: MotionAction, flags: u32) -> bool
    ensures { result ≡ is_cancelled action flags }
{
    match action {
        MotionAction::Cancel => true,
        _ => flags == FLAG_CANCELED,
    }
}

/// Adds the line of a pointer that goes down.
fn add_down(
    text: &mut Vec<u8>,
    clock: Moment,
    sight: &Sight,
    motion: &Motion,
    pointer: &Pointer,
) -> Result<(), AllocError>
    ensures { (s : Scene) → IsSeen s motion.now.device sight.now → Comes s motion.now pointer.now
        → IfOk result (λ _. text.new.items
        ≡ text.old.items
        ++ line clock (down_words motion.now.device pointer.now (down_of s motion.now pointer.now))) }
{
    let causes = down_causes(sight, motion, pointer);
    down(text, clock, motion.device, *pointer, &causes)
}

/// Adds the line of a pointer that goes up.
fn add_up(
    text: &mut Vec<u8>,
    clock: Moment,
    sight: &Sight,
    motion: &Motion,
    id: PointerId,
) -> Result<(), AllocError>
    ensures { (s : Scene) → IsSeen s motion.now.device sight.now
        → IfOk result (λ _. text.new.items
        ≡ text.old.items
        ++ line clock
        (up_words (is_cancelled motion.now.action motion.now.flags) motion.now.device id
        (λ w. s.holds w motion.now.device id))) }
{
    let held = sight.touches.holding(motion.device, id);
    if is_cancelled(motion.action, motion.flags) {
        palm(text, clock, motion.device, id, held)
    } else {
        up(text, clock, motion.device, id, held)
    }
}

/// Adds the line of a pointer that slips with a move, if one does.
fn add_slip(
    text: &mut Vec<u8>,
    clock: Moment,
    sight: &Sight,
    motion: &Motion,
    pointer: &Pointer,
) -> Result<(), AllocError>
    ensures { (s : Scene) → IsSeen s motion.now.device sight.now
        → IfOk result (λ _. text.new.items
        ≡ with_lines clock (slip_words motion.now.device pointer.now (slip s motion.now)) text.old.items) }
{
    let way = sight
        .touches
        .slip(motion, sight.windows, &sight.reach, sight.able);
    match way {
        Some(way) => slip(text, clock, motion.device, *pointer, way.from, way.to),
        None => Ok(()),
    }
}

/// Adds the causes of a motion with a changed pointer.
fn add_changed(
    text: &mut Vec<u8>,
    clock: Moment,
    sight: &Sight,
    motion: &Motion,
    pointer: &Pointer,
) -> Result<(), AllocError>
    requires { changed motion.now ≡ Some pointer.now }
    ensures { (s : Scene) → IsSeen s motion.now.device sight.now → MayCome s motion.now
        → IfOk result (λ _. text.new.items
        ≡ with_lines clock (motion_words s motion.now (changed motion.now)) text.old.items) }
{
    if is_down(motion.action) {
        add_down(text, clock, sight, motion, pointer)
    } else if is_up(motion.action) {
        add_up(text, clock, sight, motion, pointer.id)
    } else {
        add_slip(text, clock, sight, motion, pointer)
    }
}

/// Adds the causes of a motion of a device, from what the rules see before it.
pub(crate) fn add_motion(
    text: &mut Vec<u8>,
    clock: Moment,
    sight: &Sight,
    motion: &Motion,
) -> Result<(), AllocError>
    ensures { (s : Scene) → IsSeen s motion.now.device sight.now → MayCome s motion.now
        → IfOk result (λ _. text.new.items
        ≡ with_lines clock (motion_words s motion.now (changed motion.now)) text.old.items) }
{
    match changed(motion) {
        Some(pointer) => add_changed(text, clock, sight, motion, &pointer),
        None => Ok(()),
    }
}
