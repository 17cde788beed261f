//! What holds a step open.
use std::sync::atomic::{AtomicU64, Ordering};
use std::thread::yield_now;

/// How many turns a wait takes before it gives up: some ten seconds and more, so that a machine with much to do is
/// waited for. At each turn others run.
const TURNS: u64 = 50_000_000;

/// What a step reports about itself, and what it waits for.
#[derive(Drop)]
pub(crate) struct Flags {
    inside: AtomicU64,
    open: AtomicU64,
}

impl Flags {
    /// No step is inside, and the next one will wait.
    pub(crate) fn new() -> Flags {
        Flags {
            inside: AtomicU64::new(0),
            open: AtomicU64::new(0),
        }
    }

    /// Lets all steps through.
    pub(crate) fn release(&self) {
        self.open.store(1, Ordering::SeqCst);
    }

    /// Waits until a step is inside. False if it gave up.
    pub(crate) fn wait_inside(&self) -> bool {
        reaches_one(&self.inside)
    }

    /// A step is inside until it is released or the wait gives up.
    pub(crate) fn hold(&self) {
        self.inside.store(1, Ordering::SeqCst);
        reaches_one(&self.open);
    }
}

// Waits until the number is 1. False if it gave up.
fn reaches_one(number: &AtomicU64) -> bool {
    for _ in 0..TURNS {
        if number.load(Ordering::SeqCst) == 1 {
            return true;
        }
        yield_now();
    }
    false
}
