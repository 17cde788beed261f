//! Motion events.
ghost use Rattle.std.specs.Prelude.{◌≡◌, ◌+◌, ◌*◌, ◌<◌};
ghost use Rattle.input_types.specs.Action.{action_number};
ghost use Rattle.input_types.specs.Gestures.{judged_flags, unmarked};

use crate::number::DeviceId;
use crate::pointer::Pointers;

/// The flag of a message that ends something by a cancel, as KeyEvent's and MotionEvent's `FLAG_CANCELED`.
pub const FLAG_CANCELED: u32 = 0x20;

/// The mark of a motion whose position a window of another owner covers, as MotionEvent's
/// `FLAG_WINDOW_IS_OBSCURED`.
pub const FLAG_OBSCURED: u32 = 0x1;

/// The mark of a motion of a window that a window of another owner covers elsewhere, as MotionEvent's
/// `FLAG_WINDOW_IS_PARTIALLY_OBSCURED`.
pub const FLAG_PARTLY_OBSCURED: u32 = 0x2;

/// The action of a motion, with MotionEvent's names.
#[derive(Clone, Copy, Debug, PartialEq, Eq)]
pub enum MotionAction {
    /// The first pointer goes down.
    Down,
    /// The last pointer goes up.
    Up,
    /// The pointers are at these positions now.
    Move,
    /// The gesture ends, and must not be acted on.
    Cancel,
    /// A pointer went down outside the window.
    Outside,
    /// A further pointer goes down.
    PointerDown,
    /// One of several pointers goes up.
    PointerUp,
}

impl MotionAction {
    /// Its number, as MotionEvent's `getActionMasked` gives it.
    pub fn number(self) -> u8
        ensures value { result ≡ action_number self }
        ensures range { result < 7 }
    {
        match self {
            MotionAction::Down => 0,
            MotionAction::Up => 1,
            MotionAction::Move => 2,
            MotionAction::Cancel => 3,
            MotionAction::Outside => 4,
            MotionAction::PointerDown => 5,
            MotionAction::PointerUp => 6,
        }
    }
}

/// A motion of the pointers of one device.
#[derive(Clone, Copy, Debug, PartialEq, Eq)]
pub struct Motion {
    pub device: DeviceId,
    pub action: MotionAction,
    /// For `PointerDown` and `PointerUp`, the index in `pointers` of the one that goes down or up; 0 for other actions.
    pub index: u8,
    /// 0 or `FLAG_CANCELED`; what a window is sent may have the marks `FLAG_OBSCURED` and `FLAG_PARTLY_OBSCURED`
    /// beside.
    pub flags: u32,
    /// All pointers that are down, including the one that goes down or up.
    pub pointers: Pointers,
}

impl Motion {
    /// Its flags without the marks.
    pub fn unmarked(&self) -> u32
        ensures { result ≡ unmarked self.now.flags }
    {
        self.flags & !(FLAG_OBSCURED | FLAG_PARTLY_OBSCURED)
    }

    /// Those of its flags that the rule of a window's stream judges: all of an `Outside`, and of other motions all but
    /// the marks.
    pub fn judged_flags(&self) -> u32
        ensures { result ≡ judged_flags self.now.action self.now.flags }
    {
        match self.action {
            MotionAction::Outside => self.flags,
            MotionAction::Down
            | MotionAction::Up
            | MotionAction::Move
            | MotionAction::Cancel
            | MotionAction::PointerDown
            | MotionAction::PointerUp => self.unmarked(),
        }
    }

    /// The action with the pointer index in bits 8 to 15, as MotionEvent's `getAction` gives it.
    pub fn action_word(&self) -> u32
        ensures { result ≡ action_number self.now.action + 256 * self.now.index }
    {
        u32::from(self.action.number()) + 256 * u32::from(self.index)
    }
}
