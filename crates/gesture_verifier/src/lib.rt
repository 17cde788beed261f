//! A verifier of the messages that one window is sent.
//!
//! A window that is sent a well-formed stream sees whole gestures: a first finger that goes down, further ones,
//! moves, and an end for each; keys whose repeats are counted from 0; and a focus that it gets before it loses it.
//! `Verifier` checks the messages of a stream one by one and reports the first that makes the stream ill-formed.
//!
//! Example: after a `Down` of pointer 0 on device 1, a second `Down` is refused. Its `Fault` says that one message was
//! accepted (`place` 1), that pointer 0 is down (`held` 0b1), and why the second one is not allowed (`reason`
//! `AlreadyDown`). An `Up` of that pointer is then accepted, since a refused message changes nothing. At the end of a
//! stream `ids_down` and `keys_down` return what it left down.
#![tactic(auto)]

mod fault;
mod held;
mod reason;
mod repeats;
mod verifier;

pub use fault::{Fault, StepError};
pub use held::HeldKey;
pub use reason::Reason;
pub use verifier::Verifier;
