//! What a dispatcher keeps in place of a history, and how each step changes it: definitions and laws, with no code.
//!
//! A history says what a channel was sent and how far its owner has come; what is kept says the same in a few lists
//! and numbers. A window whose limit is 5000000 is sent a DOWN at 0 and a MOVE at 1000000, and its owner receives the
//! DOWN. Then its channel is kept as:
//!
//! ```text
//! terms       limit 5000000, Android's repeats
//! gone        1             the DOWN was received, and may be released
//! messages    2: MOVE
//! published   2
//! received    1
//! finished    0
//! unfinished  1 delivered at 0, 2 delivered at 1000000
//! ```
//!
//! and it is due to be reported at 5000000. Its owner finishes the DOWN: now message 1 is finished, only 2 is
//! unfinished, and the channel is due at 6000000. Nothing else changes, in this channel or any other. The laws say so
//! for each step, so code that keeps these values by them can answer every call as the history would.
pub mod laws;
