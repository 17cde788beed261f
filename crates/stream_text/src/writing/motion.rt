//! Motions as texts.
ghost use Rattle.std.specs.Prelude.{◌≡◌, ◌+◌, ◌≤◌, [], ◌∷◌, ◌++◌, codes, length, drop, decimal};
ghost use Rattle.input_types.specs.declared.motion.MotionAction.TheVariants.{Move};
ghost use Rattle.stream_text.specs.Spelling.{action, flag_words, head, indexed, motion};
ghost use Rattle.dispatcher.specs.InputChannel.Moves.{counted_from, move_of};
ghost use Rattle.stream_text.specs.KeptText.{Holds, Moves};

use crate::writing::flags::{prepend_any_flags, prepend_flags};
use crate::writing::kept_pointers::KeptPointers;
use crate::writing::prepend::{Room, prepend_number, prepend_word};
use input_types::{DeviceId, Motion, MotionAction, Pixel, Pointers};

#[tactic(auto, unfolding(crate::specs::Spelling::indexed))]
fn prepend_indexed(line: &mut Room, end: usize, name: &str, index: u8) -> usize
    requires { (length name.now + 23 ≤ end) × (end ≤ 1280) }
    ensures within { (result ≤ end) × (end ≤ result + length name.now + 21) }
    ensures written { drop result line.new ≡ indexed name.now index ++ drop end line.old }
{
    let at = prepend_number(line, end, u64::from(index));
    let at = prepend_word(line, at, ":");
    prepend_word(line, at, name)
}

fn prepend_action(line: &mut Room, end: usize, motion: &Motion) -> usize
    requires { (76 ≤ end) × (end ≤ 1280) }
    ensures within { (result ≤ end) × (end ≤ result + 58) }
    ensures written { drop result line.new
        ≡ action motion.now.action motion.now.index ++ flag_words motion.now.flags ++ drop end line.old }
{
    let at = prepend_flags(line, end, motion.flags);
    match motion.action {
        MotionAction::Down => prepend_word(line, at, "DOWN"),
        MotionAction::Up => prepend_word(line, at, "UP"),
        MotionAction::Move => prepend_word(line, at, "MOVE"),
        MotionAction::Cancel => prepend_word(line, at, "CANCEL"),
        MotionAction::Outside => prepend_word(line, at, "OUTSIDE"),
        MotionAction::PointerDown => prepend_indexed(line, at, "POINTER_DOWN", motion.index),
        MotionAction::PointerUp => prepend_indexed(line, at, "POINTER_UP", motion.index),
    }
}

/// Writes the word `motion` and the number of a device in front of an action, and returns where they begin.
#[inline(always)]
fn prepend_device(line: &mut Room, end: usize, device: u8) -> usize
    requires { (38 ≤ end) × (end ≤ 1280) }
    ensures within { (result ≤ end) × (end ≤ result + 28) }
    ensures written { drop result line.new ≡ codes "motion " ++ decimal device ++ codes " " ++ drop end line.old }
{
    let at = prepend_word(line, end, " ");
    let at = prepend_number(line, at, u64::from(device));
    prepend_word(line, at, "motion ")
}

/// Writes the part of a motion before its pointers in front of `end`, and returns where it begins.
#[inline(always)]
fn prepend_head(line: &mut Room, end: usize, told: &Motion) -> usize
    requires { (96 ≤ end) × (end ≤ 1280) }
    ensures within { (result ≤ end) × (end ≤ result + 86) }
    ensures written { drop result line.new ≡ head told.now ++ drop end line.old }
{
    let at = prepend_action(line, end, told);
    prepend_device(line, at, told.device.get())
}

/// Writes a motion at the end of the buffer, and returns where it begins. No Move is kept then.
#[inline(always)]
pub(crate) fn prepend_motion(line: &mut Room, kept: &mut KeptPointers, told: &Motion) -> usize
    requires { Holds line.old kept.old.list kept.old.at }
    ensures within { (134 ≤ result) × (result ≤ kept.new.at) }
    ensures moves { kept.new.moves ≡ 0 }
    ensures holds { Holds line.new kept.new.list kept.new.at }
    ensures written { drop result line.new ≡ motion told.now ++ 10 ∷ [] }
{
    let at = kept.put(line, &told.pointers);
    prepend_head(line, at, told)
}

/// Writes the part of a Move before its pointers in front of the kept pointers, and returns where it begins. This Move
/// is kept then.
#[inline(always)]
fn put_move(line: &mut Room, kept: &mut KeptPointers, device: DeviceId, flags: u32) -> usize
    requires { Holds line.old kept.old.list kept.old.at }
    ensures within { (134 ≤ result) × (result ≤ kept.new.at) }
    ensures list { kept.new.list ≡ kept.old.list }
    ensures holds { Holds line.new kept.new.list kept.new.at }
    ensures moves { Moves result line.new kept.new.moves kept.new.flags kept.new.list kept.new.at kept.new.front }
    ensures written { drop result line.new ≡ motion (move_of device flags kept.old.list) ++ 10 ∷ [] }
{
    let at = prepend_any_flags(line, kept.at, flags);
    let at = prepend_word(line, at, "MOVE");
    let at = prepend_device(line, at, device.get());
    kept.moves = device.get();
    kept.flags = flags;
    kept.front = at;
    at
}

/// Writes a Move at the end of the buffer if it does not stand there yet, and returns where it begins.
#[inline(always)]
pub(crate) fn prepend_move(line: &mut Room, kept: &mut KeptPointers, told: &Motion) -> usize
    requires action { told.now.action ≡ Move }
    requires holds { Holds line.old kept.old.list kept.old.at }
    requires moves { Moves 134 line.old kept.old.moves kept.old.flags kept.old.list kept.old.at kept.old.front }
    ensures within { (134 ≤ result) × (result ≤ kept.new.at) }
    ensures holds { Holds line.new kept.new.list kept.new.at }
    ensures moves { Moves result line.new kept.new.moves kept.new.flags kept.new.list kept.new.at kept.new.front }
    ensures written { drop result line.new ≡ motion told.now ++ 10 ∷ [] }
{
    if kept.is_move(told.device, told.flags) && kept.has(&told.pointers) {
        return kept.front;
    }
    kept.put_anew(line, &told.pointers);
    put_move(line, kept, told.device, told.flags)
}

/// Writes the Move of these pointers of a device, with these flags and with their positions counted from an origin, at
/// the end of the buffer if it does not stand there yet, and returns where it begins.
#[inline(always)]
pub(crate) fn prepend_moved(
    line: &mut Room,
    kept: &mut KeptPointers,
    device: DeviceId,
    flags: u32,
    pointers: &Pointers,
    origin: Pixel,
) -> usize
    requires holds { Holds line.old kept.old.list kept.old.at }
    requires moves { Moves 134 line.old kept.old.moves kept.old.flags kept.old.list kept.old.at kept.old.front }
    ensures within { (134 ≤ result) × (result ≤ kept.new.at) }
    ensures holds { Holds line.new kept.new.list kept.new.at }
    ensures moves { Moves result line.new kept.new.moves kept.new.flags kept.new.list kept.new.at kept.new.front }
    ensures written { drop result line.new
        ≡ motion (move_of device flags (counted_from origin pointers.now)) ++ 10 ∷ [] }
    ensures long { length line.new ≡ 1280 }
{
    let same = kept.set_from(pointers, origin);
    if same && kept.is_move(device, flags) {
        return kept.front;
    }
    kept.put_again(line);
    put_move(line, kept, device, flags)
}
