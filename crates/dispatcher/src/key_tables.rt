//! What a dispatcher keeps of the focus, of keys and of repeats in place of a history, and how each step changes it.
//!
//! Window 1 is the key target, and volume up goes down at 1,000,000 microseconds, stays down, and is repeated twice.
//! The dispatcher keeps the key with its last message, `down repeat 2`, and for the next repeat that message with its
//! clock, 1,550,000. The next step sends window 1
//!
//! ```text
//! a repeat that is due               down repeat 3
//! the key goes up                    up
//! a reset of its device              up canceled
//! the focus goes to window 2         up canceled, and then that it lost the focus
//! a tick reports window 1            up canceled
//! the windows are shown again        nothing
//! ```
//!
//! and no step sends any other window a key message. After a repeat, the dispatcher keeps the repeat with its clock;
//! after an up, it keeps no key message.
//!
//! [`laws`] says this for each step of each legal history: what is kept stands for the effects of the history
//! (specs/), and each step preserves that. The laws are about the functions here, and about the code of the focus, of
//! repeats and of cancels.
mod focus;
mod key_sent;
pub mod laws;

pub use focus::{focus_change, focusable};
pub use key_sent::{remember, sent_for_key};
