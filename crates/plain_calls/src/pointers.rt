//! The actions and pointers of motions that C hands in.
ghost use Rattle.std.specs.Prelude.{◌≡◌, ◌≤◌, length, slice_get};
ghost use Rattle.plain_calls.specs.Plain.{actions, pointer_of, pointers_from};

use crate::message::PlainPointer;
use input_types::{MotionAction, Pixel, Pointer, PointerId, Pointers};

/// The action with a number.
pub(crate) fn action_of(number: u8) -> Option<MotionAction>
    ensures { result ≡ slice_get actions number }
{
    let actions = [
        MotionAction::Down,
        MotionAction::Up,
        MotionAction::Move,
        MotionAction::Cancel,
        MotionAction::Outside,
        MotionAction::PointerDown,
        MotionAction::PointerUp,
    ];
    actions.get(usize::from(number)).copied()
}

/// The pointers, if their ids rise and are at most 31.
pub(crate) fn pointers_of(rows: &[PlainPointer]) -> Option<Pointers>
    requires { length rows.now ≤ 16 }
    ensures { result ≡ pointers_from 0 rows.now }
{
    let mut list = Pointers::empty();
    let mut least = 0;
    for row in rows {
        if least <= row.id && row.id <= 31 {
            if list.push(pointer_of(row)).is_err() {
                return None;
            }
            least = row.id + 1;
        } else {
            return None;
        }
    }
    Some(list)
}

/// A pointer whose id is in its range.
fn pointer_of(row: &PlainPointer) -> Pointer
    requires { row.now.id ≤ 31 }
    ensures { result ≡ pointer_of row.now }
{
    Pointer {
        id: PointerId::new(row.id as u8).unwrap(),
        at: Pixel { x: row.x, y: row.y },
    }
}
