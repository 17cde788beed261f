//! Pointers that move, as the owner of a channel reads them.
ghost use Rattle.std.specs.Prelude.{◌≡◌, ◌+◌, ◌<◌, [], ◌∷◌, ◌++◌, vec_len, vec_capacity};
ghost use Rattle.input_types.specs.declared.message.Body.TheVariants.{Motion as MotionBody};
ghost use Rattle.window_snapshot.specs.Origins.{place_from};
ghost use Rattle.dispatcher.specs.InputChannel.Moves.{counted_from, move_of, moves_from};

use input_types::{
    Body, DeviceId, Message, Moment, Motion, MotionAction, Pixel, Pointer, Pointers,
};

/// Fills an empty list with pointers whose positions count from an origin. It is inlined, so that the list is filled
/// where it lies.
#[inline(always)]
pub fn list_from(listed: &mut Pointers, pointers: &Pointers, origin: Pixel)
    requires { listed.old ≡ [] }
    ensures { listed.new ≡ counted_from origin pointers.now }
{
    for pointer in pointers.as_slice() {
        let at = place_from(origin, pointer.at);
        listed.put(Pointer { id: pointer.id, at });
    }
}

/// A coordinate counted from an origin, saturated at the ends of its type.
#[inline(always)]
pub fn place_from(origin: Pixel, at: Pixel) -> Pixel
    ensures { result ≡ place_from origin at }
{
    Pixel {
        x: at.x.saturating_sub(origin.x),
        y: at.y.saturating_sub(origin.y),
    }
}

/// Appends the Move of these pointers to a list of messages. It is appended without pointers, which are then listed in
/// place.
pub(crate) fn push_moves(
    list: &mut Vec<Message>,
    seq: u64,
    moment: Moment,
    device: DeviceId,
    flags: u32,
    pointers: &Pointers,
    origin: Pixel,
)
    requires { vec_len list.old < vec_capacity list.old }
    ensures items { list.new.items ≡ list.old.items
        ++ record { seq = seq; moment = moment; body = moves_from origin device flags pointers.now } ∷ [] }
    ensures len { vec_len list.new ≡ vec_len list.old + 1 }
    ensures capacity { vec_capacity list.new ≡ vec_capacity list.old }
{
    let body = Body::Motion(still(device, flags));
    let place = list.len();
    list.push_reserved(Message { seq, moment, body });
    fill(&mut list[place], device, flags, pointers, origin);
}

/// The Move of no pointers.
#[inline(always)]
fn still(device: DeviceId, flags: u32) -> Motion
    ensures { result ≡ move_of device flags [] }
{
    Motion {
        device,
        action: MotionAction::Move,
        index: 0,
        flags,
        pointers: Pointers::empty(),
    }
}

/// Lists pointers in the message of a Move of none, with positions that count from an origin.
#[inline(always)]
fn fill(message: &mut Message, device: DeviceId, flags: u32, pointers: &Pointers, origin: Pixel)
    requires { message.old.body ≡ MotionBody (move_of device flags []) }
    ensures { message.new ≡ record message.old { body = moves_from origin device flags pointers.now } }
{
    match &mut message.body {
        Body::Motion(motion) => list_from(&mut motion.pointers, pointers, origin),
        Body::Key(_) | Body::Focus(_) => unreachable!(),
    }
}
