//! Pointers, and lists of them.
ghost use Rattle.std.specs.Prelude.{◌≡◌, ◌+◌, ◌<◌, ◌≤◌, ◌==◌, ◌↔◌, IsTrue, List, [], ◌∷◌, ◌++◌, length, slice_get, slice_set, get_or, OnOk, OnErr};
ghost use Rattle.input_types.specs.Pointers.{IsRising, EndsBelow, unused};

use crate::axis::Pixel;
use crate::number::PointerId;
use crate::short_list::{Blank, ShortList};
use std::marker::Model;

/// One pointer of a motion: its id and where it is.
#[derive(Clone, Copy, Debug, PartialEq, Eq)]
pub struct Pointer {
    pub id: PointerId,
    pub at: Pixel,
}

/// Why a pointer was not appended to a list.
#[derive(Clone, Copy, Debug, PartialEq, Eq)]
pub enum PushRefused {
    /// The list has 16 pointers already.
    Full,
    /// The last id of the list is not below the pointer's.
    NotRising,
}

impl Blank for Pointer {
    ghost nothing = { unused };

    fn blank() -> Pointer {
        Pointer {
            id: PointerId::zero(),
            at: Pixel { x: 0, y: 0 },
        }
    }
}

/// At most 16 pointers with rising ids. Contracts see it as a list.
#[derive(Clone, Copy, Debug, PartialEq, Eq)]
pub struct Pointers {
    list: ShortList<Pointer>,
}

impl Model for Pointers {
    ghost use Rattle.std.specs.Prelude.{List};
    ghost use Rattle.input_types.specs.declared.pointer.Pointer.{Pointer as Element};
    ghost use Rattle.input_types.specs.Pointers.{IsRising};

    ghost Value = { List Element };

    ghost view = { λ p. p.list };

    ghost invariant = { λ p. IsRising p.list };

    ghost inverse = { λ ps. record { list = ps } };
}

impl Pointers {
    /// The most pointers that a list has.
    pub const MAX: usize = 16;

    /// The list without pointers.
    pub fn empty() -> Pointers
        ensures { result ≡ [] }
    {
        Pointers {
            list: ShortList::empty(),
        }
    }

    /// How many pointers it has, at most 16.
    pub fn len(&self) -> usize
        ensures value { result ≡ length self.now }
        ensures range { result ≤ 16 }
        ensures rises { IsRising self.now }
    {
        self.list.len()
    }

    /// Whether it has no pointer.
    pub fn is_empty(&self) -> bool
        ensures { result ≡ (length self.now == 0) }
    {
        self.list.len() == 0
    }

    /// The pointer at index `i`, counted from 0; None exactly if `i` is not below `len`.
    pub fn get(&self, i: usize) -> Option<Pointer>
        ensures { result ≡ slice_get self.now i }
    {
        self.list.get(i)
    }

    /// The pointers in use as a slice: at most 16, with rising ids.
    pub fn as_slice(&self) -> &[Pointer]
        ensures value { result.now ≡ self.now }
        ensures range { length result.now ≤ 16 }
        ensures rises { IsRising result.now }
    {
        self.list.as_slice()
    }

    /// Appends a pointer to the list.
    ///
    /// Returns `Full` exactly if the list has 16 pointers, and otherwise `NotRising` exactly if its last id is not
    /// below that of `p`. The list then stays as it was.
    pub fn push(&mut self, p: Pointer) -> Result<(), PushRefused>
        ensures ok { OnOk result (self.new ≡ self.old ++ p ∷ []) }
        ensures full { (result ≡ Err PushRefused.Full) ↔ (length self.old ≡ 16) }
        ensures not_rising { (result ≡ Err PushRefused.NotRising)
            ↔ ((length self.old < 16) × ¬ EndsBelow self.old p.id) }
        ensures err { OnErr result (self.new ≡ self.old) }
    {
        if self.list.len() >= Self::MAX {
            return Err(PushRefused::Full);
        }
        if !ends_below(self.list.as_slice(), p.id) {
            return Err(PushRefused::NotRising);
        }
        self.list.push(p);
        Ok(())
    }

    /// Appends without checks: the list must have room, and its last id must be below that of `p`.
    pub fn put(&mut self, p: Pointer)
        requires room { length self.old < 16 }
        requires rises { EndsBelow self.old p.id }
        ensures { self.new ≡ self.old ++ p ∷ [] }
    {
        self.list.push(p);
    }

    /// Moves the pointer at index `i`, counted from 0, to another position. Nothing changes if `i` is not below `len`.
    pub fn move_to(&mut self, i: usize, at: Pixel)
        ensures { self.new ≡ slice_set self.old i (record { id = (get_or self.old i unused).id; at = at }) }
    {
        if i < self.list.len() {
            let id = self.list.as_slice()[i].id;
            self.list.set(i, Pointer { id, at });
        }
    }
}

/// Whether the last id of a list is below `id`; true if the list is empty.
fn ends_below(pointers: &[Pointer], id: PointerId) -> bool
    ensures { IsTrue result ↔ EndsBelow pointers.now id }
{
    match pointers.last() {
        None => true,
        Some(last) => last.id.get() < id.get(),
    }
}
