//! The lines of the causes of a run: a function for each kind of line.
//!
//! ```text
//! 1000000 down 1 0 100,200 touched 1 row first chosen 1 spies - pilfering - given 1 mute - outside -
//! 1020000 up 1 0 from 1
//! ```
//!
//! Each function appends its line to a text, with the clock in microseconds in front and the newline at the end.
//! `why_text` defines the words of a line. Sets of windows come as masks, in which bit `channel - 1` stands for a
//! channel, and sets of pointer ids as `Bits32`. If memory runs out, the text may end with a part of the line.
#![tactic(auto, unfolding(text_lines::specs::Written::labeled))]

mod changes;
mod channels;
mod downs;
mod keys;
mod line;
mod losing;
mod motions;
mod sets;
mod snapshot;

pub use changes::{focus, target};
pub use channels::{
    PilferRefused, pilfer, pilfer_refused, removed, removed_gone, request, responsive, timeout,
};
pub use downs::{Causes, down};
pub use keys::{key_down, key_up, repeat};
pub use losing::{Lost, gone};
pub use motions::{palm, reset, slip, up};
pub use snapshot::windows;
