//! What a window must be sent when its gestures and keys end early.
//!
//! In a window's stream the pointers 0, 1 and 2 are down at (1,1), (2,2) and (3,3), and a spy takes 0 and 2. The
//! window is sent
//!
//! ```text
//! POINTER_UP:0 canceled 0@1,1 1@2,2 2@3,3
//! POINTER_UP:1 canceled 1@2,2 2@3,3
//! ```
//!
//! and keeps 1. If the spy took all three, the window would be sent one `CANCEL 0@1,1 1@2,2 2@3,3`. A key that is
//! taken away goes up with the flag, with the code and the meta bits of its last message.
//!
//! An [`InputState`] tracks what one window is sent. The cancels are made from it alone and do not change it; once
//! they are tracked too, what they end is gone ([`laws`]). [`Cancels`] yields those of pointers one by one. Once what
//! the routing rules send to a window at a step is tracked, exactly what it holds then remains.
mod cancels;
mod held_keys;
pub mod laws;
mod pointers;
mod state;

pub use cancels::Cancels;
pub use state::InputState;
