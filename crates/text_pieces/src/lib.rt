//! A text as a list of pieces, so that existing pieces are passed on without copying.
//!
//! The pieces `channel 1 main\n`, `1 0 focus 1\n` and `end 1 sent 1 received 1 finished 1\n` are the text of the three
//! lines. Contracts see a text as its bytes, and never where one piece ends and the next begins.
#![tactic(auto)]

mod pieces;

pub use pieces::Pieces;
