//! Texts as lines, and lines as words: shared by the readers of recordings, key layouts and stream files.
//!
//! A text of the bytes `a b`, a newline and `c` has two lines: `a b`, which ends in a newline, and `c`, which does
//! not. The first line has two words, with one blank between them. Words and numbers are appended in the form of
//! getevent, streams and orders: numbers in decimal digits.
#![tactic(auto)]

mod blanks;
mod lines;
mod written;

pub use blanks::{is_blank, skip_blanks, word_len};
pub use lines::{FirstLine, first_line, line_len};
pub use written::{add_labeled, add_number, add_signed, add_word};
