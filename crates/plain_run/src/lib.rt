//! A run of the program inside another one. Its words and up to three files come as bytes, and what it prints goes to
//! the caller's buffers.
//!
//! The words are one per line, and name the files `1`, `2` and `3`:
//!
//! ```text
//! verify --stream 1    one file, and room for 100 bytes and 100    0: the status is 0, and it prints `well formed 1 2`
//! the same             room for 10 bytes and 100                   6, ROOM: it writes `well forme`, of 16 bytes
//! verify --stream 2    one file, and room for 100 bytes and 100    0: the status is 4, with `stream: ReadFailed`
//! race ..              two files                                   21, NO_THREADS: nothing ran
//! ```
#![tactic(auto)]

mod filling;
mod lent;
mod program;
mod ran;
mod running;
mod words;

pub use lent::Lent;
pub use ran::PlainRan;
pub use running::run;
