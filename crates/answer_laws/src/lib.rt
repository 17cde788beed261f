//! Proved facts about the program's answers: there is exactly one, no args are refused on the way to it, and
//! `inspect` and `why` refuse what `replay` does.
//!
//! Take a session with one touch screen, and a recording in which a finger goes down, turns out to be a palm, and
//! leaves. Its device gives
//!
//! ```text
//! 5000   device 1: DOWN 0@100,200
//! 5200   device 1: CANCEL 0@100,200
//! ```
//!
//! and nothing when the palm leaves. Whatever a recording does, what its devices give keeps the rule of devices, so
//! each Notify of `replay`, `check`, `race` and `work` is answered Taken. `replay` gives the same answer every time.
//! `race` may give different texts, since its threads may take different orders; but if it refuses, it always refuses
//! in the same way.
#![tactic(auto)]

pub mod laws;
