//! The motions between two packets.
ghost use Rattle.std.specs.Prelude.{◌≡◌, ◌+◌, ◌<◌, ◌≤◌, [], ◌∷◌, ◌++◌, length, vec_len, vec_capacity};
ghost use Rattle.bits32.specs.Set.{is_in};
ghost use Rattle.input_types.specs.declared.message.Args.TheVariants.{Motion as MotionArgs};
ghost use Rattle.device_reader.specs.TouchMapper.Gesture.{gesture as motions_between, motion as motion_of, up as up_of};
ghost use Rattle.device_reader.specs.TouchMapper.Gesture.{down as down_of, ups, downs, moves, move_of, as_args};

use crate::touch_mapper::lists::{
    all_moved, append, in_use, is_changed, is_down, joined, joined_kept, same_ids,
};
use bits32::Bits32;
use input_types::{Args, DeviceId, FLAG_CANCELED, Motion, MotionAction, Pointer, Pointers};

/// Adds the motions between two packets, from the pointers that were down and those that are, where some of the ids
/// that are gone are cancelled.
pub fn gesture(
    given: &mut Vec<Args>,
    device: DeviceId,
    cancelled: Bits32,
    last: &Pointers,
    now: &Pointers,
)
    requires { vec_len given.old + (length last.now + length now.now + 1) ≤ vec_capacity given.old }
    ensures { given.new.items ≡ given.old.items ++ as_args (motions_between device
        (λ i. is_in i cancelled) last.now now.now) }
{
    if same_ids(last.as_slice(), now.as_slice()) {
        put_move(given, device, now);
        return;
    }
    push_ups(
        given,
        device,
        cancelled,
        &all_moved(last, now),
        now.as_slice(),
    );
    push_move(given, device, last.as_slice(), now);
    push_downs(given, device, last.as_slice(), now);
}

/// Appends a move of all pointers that are down, if there are any.
pub fn put_move(given: &mut Vec<Args>, device: DeviceId, now: &Pointers)
    requires { vec_len given.old < vec_capacity given.old }
    ensures { given.new.items ≡ given.old.items ++ as_args (move_of device now.now) }
{
    if !now.is_empty() {
        put(given, motion(device, MotionAction::Move, 0, 0, now));
    }
}

/// The pointers that are gone go up, the lowest id first.
fn push_ups(
    given: &mut Vec<Args>,
    device: DeviceId,
    cancelled: Bits32,
    moved: &Pointers,
    now: &[Pointer],
)
    requires { vec_len given.old + length moved.now ≤ vec_capacity given.old }
    ensures items { given.new.items ≡ given.old.items ++ as_args (ups device
        (λ i. is_in i cancelled) now.now [] moved.now) }
    ensures few { vec_len given.new ≤ vec_len given.old + length moved.now }
    ensures room { vec_capacity given.old ≤ vec_capacity given.new }
{
    let pointers = in_use(moved);
    let mut below = Pointers::empty();
    for (i, p) in pointers.iter().enumerate() {
        if is_down(now, p.id) {
            append(&mut below, p);
        } else {
            let all = joined(&below, pointers.split_at(i).1);
            put(
                given,
                up(device, is_cancelled(cancelled, p), below.len(), &all),
            );
        }
    }
}

/// Appends a move of the pointers that stay, if one has another pixel.
fn push_move(given: &mut Vec<Args>, device: DeviceId, last: &[Pointer], now: &Pointers)
    requires { vec_len given.old < vec_capacity given.old }
    ensures items { given.new.items ≡ given.old.items ++ as_args (moves device last.now now.now) }
    ensures few { vec_len given.new ≤ vec_len given.old + 1 }
    ensures room { vec_capacity given.old ≤ vec_capacity given.new }
{
    if is_changed(last, now.as_slice()) {
        let kept = joined_kept(&Pointers::empty(), in_use(now), last);
        put(given, motion(device, MotionAction::Move, 0, 0, &kept));
    }
}

/// The new pointers go down, the lowest id first.
fn push_downs(given: &mut Vec<Args>, device: DeviceId, last: &[Pointer], now: &Pointers)
    requires { vec_len given.old + length now.now ≤ vec_capacity given.old }
    ensures { given.new.items ≡ given.old.items ++ as_args (downs device last.now [] now.now) }
{
    let pointers = in_use(now);
    let mut below = Pointers::empty();
    for (i, p) in pointers.iter().enumerate() {
        let index = below.len();
        append(&mut below, p);
        if !is_down(last, p.id) {
            let all = joined_kept(&below, pointers.split_at(i + 1).1, last);
            put(given, down(device, index, &all));
        }
    }
}

/// Puts a motion behind the others, for which there is room.
fn put(given: &mut Vec<Args>, motion: Motion)
    requires { vec_len given.old < vec_capacity given.old }
    ensures items { given.new.items ≡ given.old.items ++ MotionArgs motion ∷ [] }
    ensures len { vec_len given.new ≡ vec_len given.old + 1 }
    ensures room { vec_capacity given.old ≤ vec_capacity given.new }
{
    given.push_reserved(Args::Motion(motion));
}

/// Whether a pointer that goes up is cancelled.
fn is_cancelled(cancelled: Bits32, pointer: &Pointer) -> bool
    ensures { result ≡ is_in pointer.now.id cancelled }
{
    cancelled.has(pointer.id.get())
}

/// A pointer goes up.
fn up(device: DeviceId, cancelled: bool, index: usize, pointers: &Pointers) -> Motion
    requires { index ≤ 16 }
    ensures { result ≡ up_of device cancelled index pointers.now }
{
    let index = index as u8;
    if pointers.len() == 1 {
        let action = if cancelled {
            MotionAction::Cancel
        } else {
            MotionAction::Up
        };
        motion(device, action, index, 0, pointers)
    } else {
        let flags = if cancelled { FLAG_CANCELED } else { 0 };
        motion(device, MotionAction::PointerUp, index, flags, pointers)
    }
}

/// A pointer has gone down.
fn down(device: DeviceId, index: usize, pointers: &Pointers) -> Motion
    requires { index ≤ 16 }
    ensures { result ≡ down_of device index pointers.now }
{
    let action = if pointers.len() == 1 {
        MotionAction::Down
    } else {
        MotionAction::PointerDown
    };
    motion(device, action, index as u8, 0, pointers)
}

/// A motion of the pointers of a list.
fn motion(
    device: DeviceId,
    action: MotionAction,
    index: u8,
    flags: u32,
    pointers: &Pointers,
) -> Motion
    ensures { result ≡ motion_of device action index flags pointers.now }
{
    Motion {
        device,
        action,
        index,
        flags,
        pointers: *pointers,
    }
}
