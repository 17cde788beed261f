//! The dispatcher as a service that runs for weeks: clients and devices come and go, and nothing keeps a history.
//!
//! A client has a window over the display, and a finger goes down on it. Then the client is closed under the finger,
//! and another one is opened on its channel:
//!
//! ```text
//! add_touch                                device 1
//! open                                     channel 1, generation 1
//! windows [its window]
//! args Motion(1 Down 0@540,1200)
//! next, of the first client                1 1000 Motion(1 Down 0@540,1200)
//! close, of the first client               it is sent a CANCEL, which it no longer receives
//! open                                     channel 1, generation 2
//! next, of the second client               nothing: it never had the finger
//! finish 1, of the first client            NotOpen
//! ```
//!
//! A [`Live`] is a dispatcher with the seats of 64 channels. Like the dispatcher, it stands for a history of the
//! dispatcher's calls (`LiveIs` of specs/Standing). Each call of the service makes a stated list of these, and the
//! service then stands for the history extended by them (specs/Opening, Closing, Settling and Showing). So everything
//! that the history's definitions say about what windows are sent holds here.
//!
//! A [`Limited`] is a `Live` that also bounds what a client leaves unreceived. Before each call that may send something
//! it chokes the clients that left more than they may, and releases those that have finished everything: it makes the
//! windows and the focus of the history agree with what the program asked for, where a wall stands for the window of a
//! choked client (specs/Limit). That is a stated list of calls too (specs/Easing), and then comes the call itself
//! (specs/LimitedCalls).
//!
//! A channel can be used again for two reasons (`laws`): a channel whose window is not shown is sent nothing, and what
//! it was sent before leaves nothing down and no focus.
#![tactic(auto)]

mod asking;
mod choking;
mod client;
mod clients;
mod closing;
mod driving;
mod easing;
mod feeding;
pub mod fingers;
pub mod finishes;
mod giving;
mod keys_down;
pub mod laws;
mod limit;
mod limited;
mod live;
mod messages;
mod next_any;
mod options;
mod passing;
mod plugging;
mod refused;
mod releasing;
pub mod replacing;
mod settling;
mod showing;
mod slots;
mod steps;
mod strokes;
pub mod through;
mod touching;
mod walling;
pub mod window_at;
mod windows;

pub use client::Client;
pub use limit::Limited;
pub use live::Live;
pub use next_any::Handed;
pub use options::Options;
pub use refused::{
    AddRefused, ArgsRefused, CloseRefused, FingerRefused, FinishRefused, FocusRefused, OpenRefused,
    PilferRefused, WindowRefused, WindowsRefused,
};
pub use windows::{ClientWindow, WindowInfo};
