//! Writing a whole text to a sink, and printing a line.
//!
//! Each write is handed all that remains of a piece of the text, so nothing is written twice and nothing is left out;
//! no write follows one that fails. Nothing here allocates memory: a line in parts is assembled in a buffer on the
//! stack.
//!
//! For example, a sink that takes two bytes a write, and the text `one` in the pieces `on` and `e`:
//!
//! | write | handed | taken |
//! |---|---|---|
//! | 1 | `on` | 2 |
//! | 2 | `e` | 1 |
#![tactic(auto)]

mod line;
mod output;
mod telling;

pub use line::Line;
pub use output::{write_all, write_text};
pub use telling::{tell, tell_named, tell_pair, tell_parts};
