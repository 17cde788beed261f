//! A service and its seats.
use dispatch_core::Core;
use turnstile::Turnstile;

/// A thread's place at a service, with a number that no other seat of it has.
pub type Seat = turnstile::Seat<Core>;

/// A core that threads call one at a time.
#[derive(Drop)]
pub struct Service {
    pub(crate) turnstile: Turnstile<Core>,
}
