//! The texts that the program prints about itself: its help, that of each command, and its version.
//!
//! ```text
//! --help              `usage: inputflinger COMMAND OPTIONS`, and the form of each command
//! replay --help       `usage: inputflinger replay --session FILE --events FILE`, what it reads, prints and ends with
//! --version           `inputflinger 1.0.0`
//! ```
//!
//! Each text is one constant, in lines of at most 100 bytes; only the form of `compare` in the help of all commands is
//! longer.
#![tactic(auto)]

mod page;
mod pages;
mod version;

pub use page::{Name, Page, page_text};
