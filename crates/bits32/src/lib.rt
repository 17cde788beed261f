//! Sets of small numbers in one word.
//!
//! Android keeps the ids of the fingers that are down in a set of numbers below 32 (AOSP's `BitSet32`). `Bits32` is
//! such a set. It is `Copy`, takes no memory beside its four bytes, and no call of it can fail.
//!
//! Example: the fingers 0 and 2 are down. Then `has(2)` holds, `count` is 2, the id for the next finger is
//! `first_unmarked`, which is 1, finger 2 stands at the place `index_of(2)` = 1 of the list of fingers, and `nth(1)` is
//! finger 2.
#![tactic(auto)]

mod set;

pub use set::Bits32;
