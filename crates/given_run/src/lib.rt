//! A given order: makes the calls of a plan as the lines of an order name them, one after another.
//!
//! A plan has channels, steps of scripts and args. For two windows side by side, and a finger that goes down in the
//! left one, this order shows the windows, hands in the finger, and lets the owner of channel 1 receive its DOWN and
//! finish it:
//!
//! ```text
//! s 1       the step of lane 1: the windows
//! r         the args: a finger goes down
//! p         they are dispatched
//! g 1       1 1000000 motion 1 DOWN 0@100,200
//! f 1 1     message 1 is finished
//! ```
//!
//! [`followed`] opens the channels and makes these calls. The cost of a line does not depend on how many came before
//! it: args are taken in order, and each lane keeps the index from which its next step is searched. The result is a run
//! whose sections and ANRs are printed like those of the ordered schedule. If a line asks for args or a step that the
//! plan does not have, the result is the number of lines before it.
#![tactic(auto)]

mod cooked;
mod fault;
mod follow;
mod lanes;
mod progress;

pub use cooked::Cooked;
pub use fault::Fault;
pub use follow::followed;
