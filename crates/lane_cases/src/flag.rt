//! Whether a lane has arrived, and the wait for it.
use std::sync::atomic::{AtomicU64, Ordering};
use std::thread::yield_now;

/// How many turns a wait takes before it gives up: some ten seconds and more, so that a machine with much to do is
/// waited for. At each turn others run.
const TURNS: u64 = 50_000_000;

/// Whether a lane has arrived somewhere, and whether one that waited for it gave up.
#[derive(Drop)]
pub(crate) struct Flag {
    arrived: AtomicU64,
    given_up: AtomicU64,
}

impl Flag {
    /// No lane has arrived, and none has given up.
    pub(crate) fn new() -> Flag {
        Flag {
            arrived: AtomicU64::new(0),
            given_up: AtomicU64::new(0),
        }
    }

    /// The lane is there.
    pub(crate) fn raise(&self) {
        self.arrived.store(1, Ordering::SeqCst);
    }

    /// Waits until the lane is there, or gives up.
    pub(crate) fn wait(&self) {
        for _ in 0..TURNS {
            if self.arrived.load(Ordering::SeqCst) == 1 {
                return;
            }
            yield_now();
        }
        self.given_up.store(1, Ordering::SeqCst);
    }

    /// Whether the lane has arrived, and no lane that waited for it gave up.
    pub(crate) fn held(&self) -> bool {
        self.arrived.load(Ordering::SeqCst) == 1 && self.given_up.load(Ordering::SeqCst) == 0
    }
}
