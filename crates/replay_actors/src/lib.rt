//! A race: a reader, a dispatcher, scripts and applications as threads that share one core; what they leave behind; and
//! what is printed of it.
//!
//! The caller opened two channels, the second of which has a window, and has the seat with number 0. Lanes run
//! concurrently, each with a seat of its own, so two runs need not go alike. One may begin like this:
//!
//! ```text
//! seat 3, a script        Windows { now: 0, snapshot: [2 at [0, 0, 1080, 2400]] }            Done
//! seat 1, the reader      Notify { now: 1000, args: Motion(1 Down 0@540,1200) }              Taken
//! seat 4, applications    Receive { channel: 1 }                                             Empty
//! seat 2, the dispatcher  Pump { now: 0 }                                                    Dispatched
//! seat 5, applications    Receive { channel: 2 }                                             Got(1 1000 Motion(..))
//! seat 2, the dispatcher  Tick { now: 0 }                                                    Named(0)
//! seat 5, applications    Finish { now: 0, channel: 2, seq: 1 }                              Done
//! ```
//!
//! The steps of a session are dealt to its scripts ([`scripts_of`]), and each lane makes its own calls in order
//! (specs/Lanes). Once all lanes have ended, the caller does what is left to do ([`settle`]). Whatever the order was,
//! [`run_lanes`] states what holds of the whole history: each lane's calls are there in the lane's order, no others
//! are, and nothing is left to do (`IsRace` of specs/Race). [`race_text`] prints the order, and then what each channel
//! was sent; following the printed order leads to the printed streams ([`laws`]).
//!
//! A program that prints a race takes the function that runs its lanes. Its contract can then say that its text is that
//! of an end which this function returned: the order in the text is the one that the lanes took, and not one that the
//! program made up. [`run_start`] runs them as threads:
//!
//! ```text
//! run_by(.., |start| run_start(rt, alloc, start, gate))      the lanes are threads, at which a gate stands
//! ```
#![tactic(auto)]

mod acts;
mod answered;
mod gate;
mod job;
mod lane;
pub mod laws;
mod opening;
mod order;
mod part;
mod planned;
mod pumping;
mod race;
mod receiving;
mod run;
mod runner;
mod scripts;
mod settling;
mod streams;
mod text;

pub use acts::call_of;
pub use gate::{Gate, NoGate};
pub use opening::open_channels;
pub use part::{Lanes, RaceEnd};
pub use run::run_lanes;
pub use runner::{Start, run_start};
pub use scripts::scripts_of;
pub use settling::settle;
pub use text::race_text;
