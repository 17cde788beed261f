//! Reading a motion.
ghost use Rattle.std.specs.Prelude.{◌≡◌, ◌≤◌, cond, Some, None, option_map, IfSome};
ghost use Rattle.stream_text.specs.MessageLine.{action_at, indexed_at, motion_of, pointer_at, pointers_at};
ghost use Rattle.stream_text.specs.StreamLine.{line_that_moves};

use crate::reading::flags::flags;
use crate::reading::number::{device, integer, labeled, number, past};
use crate::stream_line::StreamLine;
use input_types::{
    Body, Message, Moment, Motion, MotionAction, Pixel, Pointer, PointerId, Pointers,
};

#[inline(always)]
#[tactic(auto, unfolding(crate::specs::MessageLine::indexed_at))]
fn indexed(action: MotionAction, bytes: &[u8]) -> Option<(MotionAction, u8, &[u8])>
    ensures { option_map (λ read. (read.0, read.1, read.2.now)) result ≡ indexed_at action bytes.now }
{
    let (index, rest) = number(255, bytes)?;
    Some((action, index as u8, rest))
}

#[tactic(auto, unfolding(crate::specs::MessageLine::action_at))]
fn action(bytes: &[u8]) -> Option<(MotionAction, u8, &[u8])>
    ensures { option_map (λ read. (read.0, read.1, read.2.now)) result ≡ action_at bytes.now }
{
    if let Some(rest) = past("MOVE", bytes) {
        return Some((MotionAction::Move, 0, rest));
    }
    if let Some(rest) = past("DOWN", bytes) {
        return Some((MotionAction::Down, 0, rest));
    }
    if let Some(rest) = past("UP", bytes) {
        return Some((MotionAction::Up, 0, rest));
    }
    if let Some(rest) = past("CANCEL", bytes) {
        return Some((MotionAction::Cancel, 0, rest));
    }
    if let Some(rest) = past("OUTSIDE", bytes) {
        return Some((MotionAction::Outside, 0, rest));
    }
    if let Some(rest) = past("POINTER_DOWN:", bytes) {
        return indexed(MotionAction::PointerDown, rest);
    }
    if let Some(rest) = past("POINTER_UP:", bytes) {
        return indexed(MotionAction::PointerUp, rest);
    }
    None
}

#[inline(always)]
#[tactic(auto, unfolding(crate::specs::MessageLine::pointer_at))]
fn pointer(least: u8, bytes: &[u8]) -> Option<(u8, Pixel, &[u8])>
    ensures value { option_map (λ read. (record { id = read.0; at = read.1 }, read.2.now)) result
        ≡ pointer_at least bytes.now }
    ensures id { IfSome result (λ read. (least ≤ read.0) × (read.0 ≤ 31)) }
{
    let (id, rest) = labeled(" ", 31, bytes)?;
    let rest = past("@", rest)?;
    let (x, rest) = integer(rest)?;
    let rest = past(",", rest)?;
    let (y, rest) = integer(rest)?;
    if id < u64::from(least) {
        return None;
    }
    Some((id as u8, Pixel { x, y }, rest))
}

/// Reads the pointers up to the end of the line into a list, and returns whether nothing else stands there.
#[inline(always)]
#[tactic(auto, unfolding(crate::specs::MessageLine::pointers_at))]
fn pointers(list: &mut Pointers, bytes: &[u8]) -> bool
    ensures { cond result (Some list.new) None ≡ pointers_at 16 0 bytes.now }
{
    *list = Pointers::empty();
    let mut room: u8 = 16;
    let mut least = 0;
    let mut rest = bytes;
    'pointers: while !rest.is_empty() {
        if room == 0 {
            return false;
        }
        let Some((id, at, behind)) = pointer(least, rest) else {
            return false;
        };
        let Some(new) = PointerId::new(id) else {
            return false;
        };
        list.put(Pointer { id: new, at });
        room -= 1;
        least = id + 1;
        rest = behind;
    }
    true
}

/// Reads the line of a message with this number and time after `motion `, and returns whether it is one.
#[inline(always)]
#[tactic(auto, unfolding(crate::specs::MessageLine::motion_of))]
pub(crate) fn motion(seq: u64, moment: Moment, bytes: &[u8], says: &mut StreamLine) -> bool
    ensures { cond result (Some says.new) None ≡ line_that_moves seq moment (motion_of bytes.now) }
{
    let Some((device, rest)) = device(bytes) else {
        return false;
    };
    let Some(rest) = past(" ", rest) else {
        return false;
    };
    let Some((action, index, rest)) = action(rest) else {
        return false;
    };
    let (flags, rest) = flags(rest);
    let mut list = Pointers::empty();
    if !pointers(&mut list, rest) || usize::from(index) >= list.len() {
        return false;
    }
    let motion = Motion {
        device,
        action,
        index,
        flags,
        pointers: list,
    };
    *says = StreamLine::Message(Message {
        seq,
        moment,
        body: Body::Motion(motion),
    });
    true
}
