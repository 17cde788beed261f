//! The words of a command: which command they give, and what its options say.
//!
//! The first word names the command. The words after it are each of its options once, in any order, in two words or
//! in one:
//!
//! ```text
//! replay --session a.toml --events b.txt
//! replay --events=b.txt --session=a.toml
//! ```
//!
//! are the same command. The result borrows from the words, and allocates no memory.
//!
//! If words give no command, their fault names the word, the option or the value:
//!
//! ```text
//! play                                   UnknownCommand("play")
//! replay --session a.toml                Missing("--events")
//! replay --session a.toml --event b.txt  UnknownOption("--event")
//! work --seed 1 --packets 0              BadValue("--packets", "0")
//! ```
#![tactic(auto)]

mod command;
mod fault;
mod forms;
pub mod laws;
mod names;
mod number;
mod options;
mod spelled;
mod value;

pub use command::{Alone, Command, Recorded, command_of};
pub use fault::{Fault, fault_of, shown};
pub use help_text::{Name, Page};
