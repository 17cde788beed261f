//! Which windows hold which pointers of one touch device, since when, and which of them are pilfering it.
//!
//! A state is a table with a row for each of the windows 1 to 64, and two masks; none of its calls allocates memory.
//! Two windows stand side by side, 1 on the left and 2 on the right, and each step has an index, its number in the
//! order of all steps:
//!
//! ```text
//! place 5   down 0 in {1}     1 holds {0} since 5
//! place 6   down 1 in {2}     1 holds {0} since 5, 2 holds {1} since 6
//! place 7   down 2 in {1}     1 holds {0, 2} since 5, 2 holds {1} since 6
//! place 8   up 0              1 holds {2} since 5, 2 holds {1} since 6
//! ```
//!
//! The earlier of the two is 1, although pointer 1 is older than pointer 2: a window counts from the step at which it
//! last went from holding nothing to holding something.
//!
//! Each change is stated in one form, `Changes` of specs/Touches: what it gives, what it takes, its index, and which
//! windows pilfer. A window that no longer holds anything stops pilfering. By the routing rules a step leaves a mark
//! of what it gives and takes; a state that changes so at each step agrees with the marks ([`laws`]).
#![tactic(auto)]

pub mod laws;
mod row;
mod state;

pub use state::TouchState;
