//! The list of cancelled keys.
ghost use Rattle.std.specs.Prelude.{◌≡◌, ◌≤◌, OnOk, vec_capacity};

use input_types::KeyMsg;
use std::alloc::{AllocError, Global};
use std::marker::Model;
use std::mem::replace;

/// A list that each step uses anew and that keeps its room. Contracts see how many keys it has room for.
#[derive(Drop)]
pub(crate) struct Cancelled {
    keys: Vec<KeyMsg>,
}

impl Model for Cancelled {
    ghost use Rattle.std.specs.Prelude.{ℕ, vec_capacity};

    ghost Value = { ℕ };

    ghost view = { λ c. vec_capacity c.keys };
}

impl Cancelled {
    /// A list without room.
    pub(crate) fn new(alloc: Global) -> Cancelled {
        Cancelled {
            keys: Vec::new(alloc),
        }
    }

    /// Hands the list out. One without room stays.
    pub(crate) fn take(&mut self) -> Vec<KeyMsg>
        ensures { vec_capacity result ≡ self.old }
    {
        let alloc = *self.keys.allocator();
        replace(&mut self.keys, Vec::new(alloc))
    }

    /// Makes room for this many keys. If memory runs out, nothing changes.
    pub(crate) fn reserve(&mut self, keys: usize) -> Result<(), AllocError>
        ensures ok { OnOk result (keys ≤ self.new) }
        ensures more { self.old ≤ self.new }
    {
        self.keys.clear();
        self.keys.reserve(keys)
    }

    /// Takes the list back.
    pub(crate) fn keep(&mut self, keys: Vec<KeyMsg>)
        ensures { self.new ≡ vec_capacity keys }
    {
        self.keys = keys;
    }
}
