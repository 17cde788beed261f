//! The top call of the program: from the words and the bytes of its files to the text, or to a status and a line.
//!
//! `replay` writes what each window is sent for a session and a recording. `race` does so on threads, with the order
//! that they took in front, and `check` in an order that a file gives. `inspect` writes what a session and a recording
//! contain, `why` what each call caused, and `work` a summary of a session made from a number. `verify` and `judge`
//! judge streams, `compare` compares them, and `batch`, `hover` and `emit` write other texts.
//!
//! [`run`] reads the words, answers the command, and writes the text, or reports by a status and a line why there is
//! none. Its contract says when each status comes and what was written; `specs/Program.antt` of `command_answers` says
//! which text belongs to the words and the files. [`run_alone`] does everything except `race`, and starts no thread.
//! [`run_by`] does everything, and lets a function of its caller run the lanes of `race`: the order that it writes is
//! one that this function returned.
//!
//! ```text
//! verify --stream a.txt               status 0, and the output took `well formed 1 2`
//! replay --session a.toml             status 2, and the error sink took `words: Missing --events`
//! ```
#![tactic(auto)]

mod commands;
mod differing;
mod ending;
mod laws;
mod statuses;
mod top;
mod whole;

pub use ending::no_memory;
pub use laws::completing;
pub use replay_actors::{Gate, NoGate, RaceEnd, Start, race_text};
pub use top::{is_alone, run, run_alone, run_by};
