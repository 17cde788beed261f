//! The two routers side by side.
//!
//! The plain router keeps a list of who holds what, and the split one tables of bits. Both send each window the same
//! at each step, and stand for equal scenes again: this is proved ([`laws`]), and also tested with some hundred
//! random turns.
//!
//! ```text
//! turn                          plain                                   split
//! DOWN 0@100,200                1: DOWN 0@100,200                       Give 0 to {1}, 1: One(DOWN)
//! POINTER_DOWN:1 1@700,400      1: MOVE 0@100,200  2: DOWN 1@700,400    Give 1 to {2}, 1: One(MOVE), 2: One(DOWN)
//! a snapshot with only 1        2: CANCEL 1@700,400                     Unnamed {1}, 2: Cancels {1}
//! ```
#![tactic(auto)]

#[cfg(test)]
mod chance;
#[cfg(test)]
mod fingers;
pub mod laws;
#[cfg(test)]
mod scenery;
#[cfg(test)]
mod sides;
#[cfg(test)]
mod split_side;
#[cfg(test)]
mod tests;
