//! Fingers that go down, move and go up on a device as chance wants.

use crate::chance::Chance;
use input_types::{
    DeviceId, FLAG_CANCELED, Motion, MotionAction, Pixel, Pointer, PointerId, Pointers,
};
use split_motion::{about, plain};
use std::test::Fail;

/// The fingers that are down on a device.
#[derive(Drop)]
pub(crate) struct Fingers {
    pub(crate) device: DeviceId,
    /// Where the finger of each id is, while it is down.
    down: [Option<Pixel>; 5],
}

impl Fingers {
    pub(crate) fn none(device: DeviceId) -> Fingers {
        Fingers {
            device,
            down: [None; 5],
        }
    }

    pub(crate) fn forget(&mut self) {
        self.down = [None; 5];
    }

    /// The next motion: a finger goes down, one goes up or is cancelled, or all move.
    pub(crate) fn next(&mut self, chance: &mut Chance) -> Result<Motion, Fail> {
        let id = PointerId::new(chance.below(5) as u8).ok_or("an id")?;
        if !self.is_down(id) {
            self.press(id, chance)
        } else if chance.below(3) == 0 {
            self.lift(id, chance.below(3) == 0)
        } else {
            self.slide(chance)
        }
    }

    fn is_down(&self, id: PointerId) -> bool {
        matches!(self.down.get(usize::from(id.get())), Some(Some(_)))
    }

    fn put(&mut self, id: PointerId, at: Option<Pixel>) {
        if let Some(finger) = self.down.get_mut(usize::from(id.get())) {
            *finger = at;
        }
    }

    /// The fingers that are down, by rising ids.
    fn listed(&self) -> Result<Pointers, Fail> {
        let mut list = Pointers::empty();
        for number in 0..5 {
            let id = PointerId::new(number).ok_or("an id")?;
            if let Some(Some(at)) = self.down.get(usize::from(number)) {
                list.push(Pointer { id, at: *at })?;
            }
        }
        Ok(list)
    }

    /// A finger goes down.
    fn press(&mut self, id: PointerId, chance: &mut Chance) -> Result<Motion, Fail> {
        self.put(id, Some(some_place(chance)));
        let list = self.listed()?;
        let action = if list.len() == 1 {
            MotionAction::Down
        } else {
            MotionAction::PointerDown
        };
        Ok(about(self.device, action, id, 0, list))
    }

    /// A finger goes up, or is cancelled.
    fn lift(&mut self, id: PointerId, is_cancelled: bool) -> Result<Motion, Fail> {
        let list = self.listed()?;
        self.put(id, None);
        let (action, flags) = lifting(list.len() == 1, is_cancelled);
        Ok(about(self.device, action, id, flags, list))
    }

    /// All fingers move.
    fn slide(&mut self, chance: &mut Chance) -> Result<Motion, Fail> {
        for finger in &mut self.down {
            if finger.is_some() {
                *finger = Some(some_place(chance));
            }
        }
        Ok(plain(self.device, MotionAction::Move, self.listed()?))
    }
}

/// How a finger goes up, which may be the last one: the action and the flags.
fn lifting(is_last: bool, is_cancelled: bool) -> (MotionAction, u32) {
    match (is_last, is_cancelled) {
        (true, true) => (MotionAction::Cancel, 0),
        (true, false) => (MotionAction::Up, 0),
        (false, true) => (MotionAction::PointerUp, FLAG_CANCELED),
        (false, false) => (MotionAction::PointerUp, 0),
    }
}

/// Some place on a display of 1080 by 2400 pixels.
fn some_place(chance: &mut Chance) -> Pixel {
    Pixel {
        x: chance.below(1080) as i32,
        y: chance.below(2400) as i32,
    }
}
