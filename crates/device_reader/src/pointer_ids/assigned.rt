//! The pointers of a packet in the device's units.
ghost use Rattle.std.specs.Prelude.{◌≡◌, ◌+◌, ◌<◌, ◌≤◌, [], ◌∷◌, ◌++◌, length, slice_get};
ghost use Rattle.device_reader.specs.PointerIds.Assigned.{IsRising, EndsBelow, unused};

use bits32::Bits32;
use input_types::PointerId;
use input_types::short_list::{Blank, ShortList};
use std::marker::Model;

/// A pointer and where it is in the device's units.
#[derive(Clone, Copy, Debug, PartialEq, Eq)]
pub struct Held {
    pub id: PointerId,
    pub x: i32,
    pub y: i32,
}

impl Blank for Held {
    ghost nothing = { unused };

    fn blank() -> Held {
        Held {
            id: PointerId::zero(),
            x: 0,
            y: 0,
        }
    }
}

/// The pointers of a packet, at most 16 with rising ids, and which ids of the packet before are cancelled: fingers that
/// became palms.
#[derive(Clone, Copy, Debug, PartialEq, Eq)]
pub struct Assigned {
    list: ShortList<Held>,
    cancelled: Bits32,
}

impl Model for Assigned {
    ghost use Rattle.device_reader.specs.PointerIds.Assigned.{Assignment, IsRising};

    ghost Value = { Assignment };

    ghost view = { λ a. record { pointers = a.list; cancelled = a.cancelled } };

    ghost invariant = { λ a. IsRising a.list };

    ghost inverse = { λ s. record { list = s.pointers; cancelled = s.cancelled } };
}

impl Assigned {
    /// The most pointers that a list has.
    pub const MAX: usize = 16;

    /// No pointer, and none cancelled.
    pub fn empty() -> Assigned
        ensures { result ≡ record { pointers = []; cancelled = 0 } }
    {
        Assigned {
            list: ShortList::empty(),
            cancelled: Bits32::empty(),
        }
    }

    /// How many pointers it has, at most 16.
    pub fn len(&self) -> usize
        ensures value { result ≡ length self.now.pointers }
        ensures range { result ≤ 16 }
        ensures rises { IsRising self.now.pointers }
    {
        self.list.len()
    }

    /// The pointer at index `i`, counted from 0; None exactly where `i` is not below `len`.
    pub fn get(&self, i: usize) -> Option<Held>
        ensures { result ≡ slice_get self.now.pointers i }
    {
        self.list.get(i)
    }

    /// The pointers as a slice.
    pub fn as_slice(&self) -> &[Held]
        ensures value { result.now ≡ self.now.pointers }
        ensures range { length result.now ≤ 16 }
        ensures rises { IsRising result.now }
    {
        self.list.as_slice()
    }

    /// The ids of the packet before whose fingers became palms: each goes up without being meant to.
    pub fn cancelled(&self) -> Bits32
        ensures { result ≡ self.now.cancelled }
    {
        self.cancelled
    }

    /// These ids are cancelled, and no others.
    pub(crate) fn cancel(&mut self, ids: Bits32)
        ensures { self.new ≡ record { pointers = self.old.pointers; cancelled = ids } }
    {
        self.cancelled = ids;
    }

    /// Puts a pointer behind the others.
    pub(crate) fn push(&mut self, held: Held)
        requires room { length self.old.pointers < 16 }
        requires rises { EndsBelow self.old.pointers held.id }
        ensures { self.new ≡ record { pointers = self.old.pointers ++ held ∷ []; cancelled = self.old.cancelled } }
    {
        self.list.push(held);
    }
}
