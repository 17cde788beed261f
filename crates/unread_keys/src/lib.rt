//! The keys of a session file that nothing reads, one a line.
//!
//! In the session
//!
//! ```toml
//! [display]
//! width = 1080
//! height = 2400
//! depth = 32
//!
//! [[device]]
//! kind = "keys"
//! path = "/dev/input/event1"
//! slots = 10
//! ```
//!
//! no row of docs/SESSION.md names `display.depth`, and `device[1].slots` is a key of touch devices alone:
//!
//! ```text
//! key display.depth
//! key device[1].slots
//! ```
//!
//! Tables come in the order in which a session is read, and the keys of a table in rising order of their bytes. What
//! stands inside such a key is not looked at.
#![tactic(auto)]

pub mod laws;
mod line;
mod names;
mod place;
mod session;
mod table;

pub use session::add_unread_keys;
