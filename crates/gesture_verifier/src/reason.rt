//! Why a message is not allowed.
ghost use Rattle.std.specs.Prelude.{◌≡◌};
ghost use Rattle.bits32.specs.Set.{members};
ghost use Rattle.input_types.specs.Pointers.{IsRising};
ghost use Rattle.gesture_verifier.specs.Reasons.{first_fitting, is_down_at};
ghost use Rattle.gesture_verifier.specs.Reasons.{action_reasons, motion_reasons, key_reasons};

use bits32::Bits32;
use input_types::{KeyMsg, Motion, MotionAction};
use pointers_down::{is_same, listed, without};

/// Why a message is not allowed after those before it: the first reason of its kind that holds.
#[derive(Clone, Copy, Debug, PartialEq, Eq)]
pub enum Reason {
    /// Flags that a motion cannot have: canceled on an action other than `PointerUp`, a mark on an `Outside`, or a flag
    /// that no rule names.
    Flags,
    /// A `Down` while pointers are down, or a `PointerDown` of a pointer that is down.
    AlreadyDown,
    /// A `Down` or an `Outside` that does not list exactly one pointer.
    OnePointer,
    /// A motion that continues or ends while no pointer is down.
    NothingDown,
    /// The listed pointers are not those that are down, apart from the one that goes down.
    OtherPointers,
    /// A `PointerUp` while one pointer is down.
    LastPointer,
    /// An `Up` while several pointers are down.
    MorePointers,
    /// A repeat of a key that is not down.
    RepeatOfNothing,
    /// A key that is down goes down with a repeat number other than the next.
    RepeatOutOfTurn,
    /// A key that is not down goes up.
    KeyNotDown,
    /// A key goes up with a repeat number other than 0.
    RepeatOnUp,
    /// A window gains a focus that it has, or loses one that it does not have.
    FocusTwice,
}

/// The first reason whose condition holds.
pub(crate) fn first_fitting(rows: &[(bool, Reason)]) -> Option<Reason>
    ensures { result ≡ first_fitting rows.now }
{
    for (fits, reason) in rows {
        if *fits {
            return Some(*reason);
        }
    }
    None
}

/// Whether a pointer with this id is down.
fn is_down(held: Bits32, id: Option<u8>) -> bool
    ensures { result ≡ is_down_at (members held) id }
{
    match id {
        Some(id) => id < 32 && held.has(id),
        None => false,
    }
}

/// Why a motion is not allowed if `held` are down on its device.
pub(crate) fn motion_reason(held: Bits32, motion: &Motion) -> Option<Reason>
    ensures value { result ≡ first_fitting (motion_reasons (members held) motion.now) }
    ensures rises { IsRising motion.now.pointers }
{
    let ids = listed(&motion.pointers);
    let goes_up = matches!(motion.action, MotionAction::PointerUp);
    if !goes_up && motion.judged_flags() != 0 {
        return Some(Reason::Flags);
    }
    action_reason(held, motion.action, ids, motion.index)
}

/// Why an action that lists `ids` is not allowed if `held` are down.
fn action_reason(held: Bits32, action: MotionAction, ids: Bits32, index: u8) -> Option<Reason>
    ensures { result ≡ first_fitting (action_reasons action (members held) (members ids) index) }
{
    let nothing = (held.count() == 0, Reason::NothingDown);
    let others = (!is_same(ids, held), Reason::OtherPointers);
    let one = (ids.count() != 1, Reason::OnePointer);
    match action {
        MotionAction::Down => first_fitting(&[(held.count() > 0, Reason::AlreadyDown), one]),
        MotionAction::PointerDown => {
            let id = ids.nth(u32::from(index));
            let rest = match without(ids, index) {
                Some(rest) => rest,
                None => ids,
            };
            let others = (!is_same(rest, held), Reason::OtherPointers);
            first_fitting(&[nothing, (is_down(held, id), Reason::AlreadyDown), others])
        }
        MotionAction::Move | MotionAction::Cancel => first_fitting(&[nothing, others]),
        MotionAction::PointerUp => {
            first_fitting(&[nothing, others, (held.count() == 1, Reason::LastPointer)])
        }
        MotionAction::Up => first_fitting(&[
            nothing,
            others,
            (held.count() > 1, Reason::MorePointers),
        ]),
        MotionAction::Outside => first_fitting(&[one]),
    }
}

/// Why a key message is not allowed, if `due` is the next repeat number of a key that is down.
pub(crate) fn key_reason(due: Option<u64>, message: &KeyMsg) -> Option<Reason>
    ensures { result ≡ first_fitting (key_reasons due message.now) }
{
    let is_first = message.repeat == 0;
    if message.key.down {
        let is_next = due.unwrap_or(0) == u64::from(message.repeat);
        first_fitting(&[
            (!due.is_some() && !is_first, Reason::RepeatOfNothing),
            (due.is_some() && !is_next, Reason::RepeatOutOfTurn),
        ])
    } else {
        first_fitting(&[
            (!due.is_some(), Reason::KeyNotDown),
            (!is_first, Reason::RepeatOnUp),
        ])
    }
}
