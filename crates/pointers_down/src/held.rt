//! The pointers that are down on one device, as a set of their ids.
ghost use Rattle.std.specs.Prelude.{◌≡◌, nat_lt, [], length, remove};
ghost use Rattle.std.specs.Option.{option_map};
ghost use Rattle.bits32.specs.Set.{members};
ghost use Rattle.input_types.specs.Pointers.{IsRising};
ghost use Rattle.input_types.specs.Gestures.{ids_of, same_ids, allowed, is_end_flag, after_action, after_motion, after_sent};

use bits32::Bits32;
use input_types::{FLAG_CANCELED, Motion, MotionAction, Pointers};

/// The ids that are down after a motion on a device on which `held` are down; None if the motion is not allowed then.
pub fn next_held(held: Bits32, motion: &Motion) -> Option<Bits32>
    ensures { option_map members result ≡ after_motion (members held) motion.now }
{
    after_listing(
        held,
        motion.action,
        listed(&motion.pointers),
        motion.index,
        motion.flags,
    )
}

/// The ids that are down in a window after a motion that it is sent, if `held` are down; None if the motion is not
/// allowed. It may have marks, but an `Outside` may not.
pub fn next_sent(held: Bits32, motion: &Motion) -> Option<Bits32>
    ensures { option_map members result ≡ after_sent (members held) motion.now }
{
    after_listing(
        held,
        motion.action,
        listed(&motion.pointers),
        motion.index,
        motion.judged_flags(),
    )
}

/// The ids of some pointers.
pub fn listed(pointers: &Pointers) -> Bits32
    ensures value { members result ≡ ids_of pointers.now }
    ensures rises { IsRising pointers.now }
{
    let mut set = Bits32::empty();
    for pointer in pointers.as_slice() {
        set.mark(pointer.id.get());
    }
    set
}

/// The ids that are down after an action that lists `ids`, with this index and these flags; None if it is not allowed.
fn after_listing(
    held: Bits32,
    action: MotionAction,
    ids: Bits32,
    index: u8,
    flags: u32,
) -> Option<Bits32>
    ensures { option_map members result ≡ after_action action (members held) (members ids) index flags }
{
    let plain = index == 0 && flags == 0;
    let same = is_same(ids, held);
    match action {
        MotionAction::Down => when(held.count() == 0 && ids.count() == 1 && plain, ids),
        MotionAction::PointerDown => {
            let fits = match without(ids, index) {
                Some(rest) => is_same(rest, held),
                None => false,
            };
            when(held.count() > 0 && fits && flags == 0, ids)
        }
        MotionAction::Move => when(same && plain, held),
        MotionAction::PointerUp => {
            if same && ids.count() > 1 && ends(flags) {
                without(ids, index)
            } else {
                None
            }
        }
        MotionAction::Up => when(same && ids.count() == 1 && plain, nothing()),
        MotionAction::Cancel => when(same && ids.count() > 0 && plain, nothing()),
        MotionAction::Outside => when(ids.count() == 1 && plain, held),
    }
}

/// The set with no id.
#[tactic(auto, unfolding(bits32::specs::Set::members_below))]
pub fn nothing() -> Bits32
    ensures { members result ≡ [] }
{
    Bits32::empty()
}

/// Whether two sets have the same numbers.
pub fn is_same(a: Bits32, b: Bits32) -> bool
    ensures { result ≡ same_ids (members a) (members b) }
{
    a.bits() == b.bits()
}

/// The set if the condition holds, or else None.
fn when(condition: bool, set: Bits32) -> Option<Bits32>
    ensures { result ≡ allowed condition set }
{
    if condition { Some(set) } else { None }
}

/// Whether a message that ends something may have these flags.
pub fn ends(flags: u32) -> bool
    ensures { result ≡ is_end_flag flags }
{
    flags == 0 || flags == FLAG_CANCELED
}

/// The set without the number at index `index` of its rising list, or None exactly if there is no such index.
pub fn without(set: Bits32, index: u8) -> Option<Bits32>
    ensures { option_map members result ≡ allowed (nat_lt index (length (members set))) (remove (members set) index) }
{
    let id = set.nth(u32::from(index))?;
    let mut rest = set;
    rest.clear(id);
    Some(rest)
}
