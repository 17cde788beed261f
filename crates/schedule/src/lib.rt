//! The ordered schedule: the calls of a plan in the order of their times.
//!
//! A plan has channels, steps of scripts and a time at which it ends; args come to it one by one, in rising time. Say
//! that a window's owner finishes each message 1,000 microseconds after receiving it. A finger that goes down at 5,000
//! and up at 5,500 then gives these rounds:
//!
//! ```text
//! 5000   Notify, Pump       then Receive of the DOWN
//! 5500   Notify, Pump       then Receive of the UP
//! 6000   Finish of the DOWN
//! 6500   Finish of the UP
//! ```
//!
//! At one time a finish comes first, then a tick, a repeat of a key, a step, and args last. A [`Schedule`] drives a
//! dispatcher in this order and keeps no list of what it was given or sent: its contract says that the dispatcher is as
//! after the effects of the ordered run of all args that came. It finds the next round from the oldest message of each
//! channel, since owners receive at once what is published.
//!
//! What a run keeps is its [`Lines`]. One that keeps lines writes each message at the end of the round that sent it,
//! and makes its text of these. One that only counts does the same and has no text. Either way the dispatcher then
//! releases each message, so a slow owner keeps none in memory: its receives are only counted. A run that explains
//! causes writes what each call except receives caused: the first of these rounds gives
//!
//! ```text
//! 5000 down 1 0 540,1200 touched 1 row first chosen 1 spies - pilfering - given 1 mute - outside -
//! ```
#![tactic(auto)]

mod advance;
mod calls;
mod choose;
mod draining;
mod due;
mod keeping;
pub mod laws;
mod open;
mod pieces;
mod plan;
mod run;
mod schedule;
mod stream;
mod text;

pub use keeping::Lines;
pub use plan::{Channel, Plan, Step};
pub use schedule::Schedule;
pub use text::add_all_anrs;
