//! The parts of a box, on their way into a handle.
ghost use Rattle.std.specs.Prelude.{◌≡◌};
ghost use Rattle.std.specs.Box.Ownership.{box_owns};

use std::alloc::Allocator;
use std::marker::Model;

/// Where the value of a box lies, and the allocator that frees its block. Whoever has both owns what the box owned.
pub struct Unboxed<T, A: Allocator> {
    pub(crate) at: *mut T,
    pub(crate) alloc: A,
    pub ghost value: { T },
}

impl<T, A: Allocator> Model for Unboxed<T, A> {
    ghost also_owns = { λ u. box_owns (A.dealloc_token u.alloc) T.row u.at u.value };
}

impl<T, A: Allocator> Unboxed<T, A> {
    /// Takes a box apart. Nothing is freed.
    pub fn from_box(owner: Box<T, A>) -> Unboxed<T, A>
    where
        T: Drop,
        ensures { result.value ≡ owner.value }
    {
        let (at, alloc) = Box::into_raw_with_allocator(owner);
        Unboxed { at, alloc }
    }
}
