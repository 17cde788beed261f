//! Writing: messages, and the sections of channels, as texts.

mod digits;
mod flags;
mod kept_digits;
mod kept_pointers;
mod key;
pub(crate) mod message;
mod motion;
mod prepend;
pub(crate) mod section;
