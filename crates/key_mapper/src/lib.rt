//! From a device's key events to what the dispatcher takes of them.
//!
//! With the layout `key 42 SHIFT_LEFT`, `key 30 A` these events give, as Android's KeyEvent has codes and meta bits:
//!
//! ```text
//! scan 42, value 1      key 59 (SHIFT_LEFT) down, meta 0x41 (SHIFT_ON, SHIFT_LEFT_ON)
//! scan 30, value 1      key 29 (A) down, meta 0x41
//! scan 30, value 2      nothing: the kernel repeats, and repeats are the dispatcher's
//! scan 42, value 0      key 59 up, meta 0
//! ```
#![tactic(auto)]

mod keys;
mod modifiers;

pub use keys::Keys;
