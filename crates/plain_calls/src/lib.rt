//! The live service in plain numbers, as programs in C call it.
//!
//! A program in C hands in numbers and structs of numbers, and gets back a status and such structs. Each call here
//! reads the numbers, makes one call of `live_input`, and returns the status of its reply. Each refusal has a status of
//! its own:
//!
//! ```text
//! clients::open                                             0, and the client is generation 1, channel 1
//! showing::windows  one of generation 1, channel 1          0
//! giving::args      motion 1 DOWN 0:540,1200                14, NO_DEVICE: no device 1 is plugged in
//! plugging::add_touch  display 4                            4, RANGE: displays are 0 to 3
//! plugging::add_keys   display 0, key 30 a                  20, BAD_LAYOUT: line 1, names are in capitals
//! messages::finish  1, of generation 7, channel 1           8, NOT_OPEN
//! ```
//!
//! A number out of its range is reported before anything changes (`Reads` of specs/Calling). The clause of a call says
//! which reply its status stands for, and that everything holds that `live_input` says about this call (`Replies`).
#![tactic(auto)]

pub mod asking;
mod client;
pub mod clients;
pub mod driving;
pub mod fingers;
pub mod giving;
pub mod keys_down;
pub mod laws;
mod layouts;
pub mod limited;
mod message;
pub mod messages;
pub mod next_any;
mod numbers;
mod options;
pub mod plugging;
mod pointers;
mod repeats;
mod replies;
mod screens;
pub mod showing;
pub mod status;
pub mod through;
mod told;
pub mod window_at;
mod windows;

pub use client::PlainClient;
pub use message::{PlainMessage, PlainPointer};
pub use numbers::flag;
pub use options::PlainOptions;
pub use repeats::{PlainRepeats, terms_of};
pub use screens::PlainDisplays;
pub use windows::{PlainRect, PlainWindow};
