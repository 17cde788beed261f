//! Makes the next step of a dispatcher and writes its causes as lines, from what the dispatcher itself reports.
//!
//! Two windows stand side by side, 1 on the left and 2 on the right, and a finger is down on the left one. A second
//! finger on the right one waits. [`apply`] of the pump that dispatches it appends this line to a text:
//!
//! ```text
//! 1010000 down 1 1 700,400 touched 2 row split chosen 2 spies - pilfering - given 2 mute - outside -
//! ```
//!
//! The lines are those that `why_text` defines, for every history that the dispatcher stands for; no second rule works
//! them out. The causes of a pump and a pilfer are known before these are made, since their replies are. The causes of
//! a finish, and the changes of the focus, are known from what the dispatcher reports before the step and after it.
//!
//! - [`apply`] makes any call of a dispatcher and adds `step_text` of its step to a text. If memory runs out,
//!   [`OutOfMemory`] says whether the call was made, and a part of its lines may have been added. [`take_step`] makes a
//!   call and adds nothing.
//! - `steps`, `requests`, `snapshots`: a function for each call.
//! - `lines`: a function for each kind of line. `causes`: why a pointer that goes down went where it went, by what the
//!   router itself asks; the causes are those of the rules (`down_of` of `why_text`), with sets of windows as masks.
//! - [`add_pump`]: a pointer that goes down, slips or goes up, a palm, a key, a repeat, or a device that begins anew.
//! - [`add_pilfer`], [`add_finish`]: what owners of channels do ([`laws`]).
//! - [`all_focused`], [`add_changes`]: the changes of the focus, and of the window that keys go to.
#![tactic(auto)]

mod blocking;
mod calls;
mod causes;
mod error;
mod focuses;
mod gone;
mod holders;
mod keys;
pub mod laws;
mod lines;
mod losing;
mod motions;
mod owners;
mod pumps;
mod requests;
mod rows;
mod seen;
mod sight;
mod snapshots;
mod steps;
mod ticks;

pub use calls::{apply, take_step};
pub use error::OutOfMemory;
pub use focuses::{Focuses, add_changes, all_focused};
pub use owners::{add_finish, add_pilfer};
pub use pumps::add_pump;
