//! The list and its calls.
ghost use Rattle.std.specs.Prelude.{◌≡◌, ◌+◌, ◌<◌, ◌≤◌, [], ◌∷◌, ◌++◌, length, slice_get, slice_set};

use crate::short_list::blank::Blank;
use std::alloc::AllocError;
use std::marker::Model;

/// At most 16 elements. Contracts see it as a list.
#[derive(Debug, PartialEq, Eq)]
pub struct ShortList<T: Blank> {
    items: [T; 16],
    used: u8,
}

impl<T: Blank> Model for ShortList<T> {
    ghost use Rattle.std.specs.Prelude.{List, take, length, replicate, ◌++◌, ◌-◌};
    ghost use Rattle.input_types.specs.ShortList.Table.{IsTable};
    ghost use Rattle.input_types.specs.ShortList.Inverse.{length_used, items_again};

    ghost Value = { List T };

    ghost view = { λ l. take l.used l.items };

    ghost invariant = { λ l. IsTable T.nothing l.items l.used };

    ghost inverse = { λ ts. record { items = ts ++ replicate (16 - length ts) T.nothing; used = length ts } };

    ghost inverse_ok = { λ l h i. record {
      items = items_again T.nothing l.items l.used h i;
      used = length_used T.nothing l.items l.used h i;
    } };
}

impl<T: Blank> Clone for ShortList<T> {
    ghost is_clone = { λ x y. y ≡ x };

    ghost is_infallible = { λ _. Unit {0} };

    fn clone(&self) -> Result<Self, AllocError> {
        Ok(*self)
    }
}

impl<T: Blank> Copy for ShortList<T> {}

impl<T: Blank> ShortList<T> {
    /// The most elements that a list has.
    pub const MAX: usize = 16;

    /// The list without elements.
    pub fn empty() -> ShortList<T>
        ensures { result ≡ [] }
    {
        ShortList {
            items: [T::blank(); 16],
            used: 0,
        }
    }

    /// How many elements it has, at most 16.
    pub fn len(&self) -> usize
        ensures value { result ≡ length self.now }
        ensures range { result ≤ 16 }
    {
        usize::from(self.used)
    }

    /// The element at index `i`, counted from 0; None exactly where `i` is not below `len`.
    pub fn get(&self, i: usize) -> Option<T>
        ensures { result ≡ slice_get self.now i }
    {
        if i < usize::from(self.used) {
            Some(self.items[i])
        } else {
            None
        }
    }

    /// The elements in use.
    pub fn as_slice(&self) -> &[T]
        ensures value { result.now ≡ self.now }
        ensures range { length result.now ≤ 16 }
    {
        &self.items[..usize::from(self.used)]
    }

    /// Sets the element at index `i`, counted from 0; nothing changes where `i` is not below `len`.
    pub fn set(&mut self, i: usize, item: T)
        ensures { self.new ≡ slice_set self.old i item }
    {
        if i < self.len() {
            self.items[i] = item;
        }
    }

    /// Puts an element behind the others.
    pub fn push(&mut self, item: T)
        requires { length self.old < 16 }
        ensures { self.new ≡ self.old ++ item ∷ [] }
    {
        self.items[usize::from(self.used)] = item;
        self.used += 1;
    }
}
