//! Reading: a stream file, its lines, and what they say.

mod flags;
mod key;
pub(crate) mod line;
mod message;
mod motion;
pub(crate) mod number;
pub(crate) mod stream_file;
pub(crate) mod stream_lines;
