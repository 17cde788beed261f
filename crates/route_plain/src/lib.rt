//! The plain router: each pointer to its windows, over a plain list of who holds what.
//!
//! [`Plain`] keeps a list of holds: which window holds which pointer of which device, in the order in which it was
//! given, and since which turn the window holds something of the device. Each [`Turn`] changes the list by the rules
//! of `routing_rules`, and returns what each channel is sent. It is slow and easy to believe; a faster router is
//! compared with it.
//!
//! Two windows stand side by side, 1 on the left and 2 on the right, both live and responsive. The turns are those of
//! two fingers:
//!
//! ```text
//! turn                                             said                                    holds after it
//! Pointers(DOWN 0@100,200)                         1: DOWN 0@100,200                       1 holds 0 since turn 0
//! Pointers(POINTER_DOWN:1 0@100,200 1@700,400)     1: MOVE 0@100,200  2: DOWN 1@700,400    and 2 holds 1 since turn 1
//! Pointers(POINTER_UP:0 0@100,200 1@700,400)       1: UP 0@100,200    2: MOVE 1@700,400    2 holds 1 since turn 1
//! Windows, the snapshot being empty                2: CANCEL 1@700,400                     none
//! ```
//!
//! A finger that stays within one window costs some walks over the list of holds, and the vector of the result.
#![tactic(auto)]

mod change;
mod choice;
mod hold;
pub mod laws;
mod listing;
mod loss;
mod plain;
mod said;
mod seen;
mod sending;
mod slip;
mod turn;

pub use hold::{Hold, Pilferer};
pub use plain::Plain;
pub use turn::{Said, Turn};
