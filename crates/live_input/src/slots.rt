//! The slots of a panel that is driven finger by finger.
ghost use Rattle.std.specs.Prelude.{◌≡◌, ◌+◌, ◌-◌, ◌%◌, ◌^◌, ◌<◌, Some, IfOk, IfSome, is_some, not, slice_set};
ghost use Rattle.std.specs.List.{position};
ghost use Rattle.live_input.specs.Slots.{fingers_of, first_free, has_finger, none_down, slot_for, slot_of, slot_with, with_slot, within};

use crate::refused::FingerRefused;
use input_types::DeviceId;

/// The touch id in each slot of a panel, how many slots it has, and how many fingers went down on it, modulo 2^31.
#[derive(Clone, Copy, Debug, PartialEq, Eq)]
pub(crate) struct Fingers {
    pub(crate) slots: [Option<i32>; 16],
    pub(crate) usable: u8,
    pub(crate) count: u32,
}

impl Fingers {
    /// A panel with this many slots, on which no finger is down.
    pub(crate) fn new(usable: u8) -> Fingers
        ensures { result ≡ none_down usable }
    {
        Fingers {
            slots: [None; 16],
            usable,
            count: 0,
        }
    }

    /// The slot in which the finger with a touch id is.
    fn slot_with(&self, id: i32) -> Option<usize>
        ensures value { result ≡ slot_with id self.now }
        ensures range { IfSome result (λ s. s < 16) }
    {
        self.slots.iter().position(|slot| has_finger(id, *slot))
    }

    /// The first slot in which no finger is.
    fn first_free(&self) -> Option<usize>
        ensures value { result ≡ first_free self.now }
        ensures range { IfSome result (λ s. s < 16) }
    {
        within(self.usable, free_slot(&self.slots))
    }

    /// The slot for a finger that goes down.
    pub(crate) fn slot_for(&self, id: i32) -> Result<usize, FingerRefused>
        ensures value { result ≡ slot_for (slot_with id self.now) (first_free self.now) }
        ensures range { IfOk result (λ s. s < 16) }
    {
        match self.slot_with(id) {
            Some(_) => Err(FingerRefused::IsDown),
            None => match self.first_free() {
                Some(slot) => Ok(slot),
                None => Err(FingerRefused::TooMany),
            },
        }
    }

    /// The slot of a finger that is down.
    pub(crate) fn slot_of(&self, id: i32) -> Result<usize, FingerRefused>
        ensures value { result ≡ slot_of (slot_with id self.now) }
        ensures range { IfOk result (λ s. s < 16) }
    {
        match self.slot_with(id) {
            Some(slot) => Ok(slot),
            None => Err(FingerRefused::NotDown),
        }
    }

    /// The fingers with another one in a slot, or none.
    pub(crate) fn with_slot(mut self, slot: usize, finger: Option<i32>) -> Fingers
        requires { slot < 16 }
        ensures { result ≡ with_slot self slot finger }
    {
        self.slots[slot] = finger;
        self
    }

    /// The fingers with one more in a slot.
    pub(crate) fn with_down(self, slot: usize, id: i32) -> Fingers
        requires { slot < 16 }
        ensures { result ≡ record {
          slots = slice_set self.slots slot (Some id);
          usable = self.usable;
          count = (self.count + 1) % 2 ^ 31;
        } }
    {
        let mut fingers = self.with_slot(slot, Some(id));
        fingers.count = next_count(fingers.count);
        fingers
    }
}

/// Whether the finger with a touch id is in a slot.
fn has_finger(id: i32, slot: Option<i32>) -> bool
    ensures { result ≡ has_finger id slot }
{
    match slot {
        Some(other) => other == id,
        None => false,
    }
}

/// The first slot of all in which no finger is.
fn free_slot(slots: &[Option<i32>; 16]) -> Option<usize>
    ensures value { result ≡ position (λ s. not (is_some s)) slots.now }
    ensures range { IfSome result (λ s. s < 16) }
{
    slots.iter().position(|slot| !slot.is_some())
}

/// A slot, if the panel has it.
fn within(usable: u8, slot: Option<usize>) -> Option<usize>
    ensures { result ≡ within usable slot }
{
    match slot {
        Some(slot) => {
            if slot < usable as usize {
                Some(slot)
            } else {
                None
            }
        }
        None => None,
    }
}

/// The next tracking id.
fn next_count(count: u32) -> u32
    ensures { result ≡ (count + 1) % 2 ^ 31 }
{
    if count < u32::MAX {
        (count + 1) % 2_147_483_648
    } else {
        0
    }
}

/// The fingers of a device.
pub(crate) fn fingers_of(all: &[Fingers; 8], device: DeviceId) -> Fingers
    ensures { result ≡ fingers_of all.now device }
{
    all[usize::from(device.get() - 1)]
}

/// Sets the fingers of a device.
pub(crate) fn set_fingers(all: &mut [Fingers; 8], device: DeviceId, fingers: Fingers)
    ensures { all.new ≡ slice_set all.old (device - 1) fingers }
{
    all[usize::from(device.get() - 1)] = fingers;
}
