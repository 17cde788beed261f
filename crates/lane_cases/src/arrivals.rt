//! A gate that counts.
use replay_actors::Gate;
use std::sync::atomic::{AtomicU64, Ordering};

/// How often each lane has arrived. It holds no lane.
#[derive(Drop)]
pub(crate) struct Arrivals {
    reader: AtomicU64,
    dispatcher: AtomicU64,
    script: AtomicU64,
    applications: (AtomicU64, AtomicU64),
    astray: AtomicU64,
}

impl Arrivals {
    /// No lane has arrived.
    pub(crate) fn new() -> Arrivals {
        Arrivals {
            reader: AtomicU64::new(0),
            dispatcher: AtomicU64::new(0),
            script: AtomicU64::new(0),
            applications: (AtomicU64::new(0), AtomicU64::new(0)),
            astray: AtomicU64::new(0),
        }
    }

    /// How often each lane has arrived, in the order of their seats. None if one came at another turn than its next,
    /// or where another lane came.
    pub(crate) fn counted(&self) -> Option<[u64; 5]> {
        if self.astray.load(Ordering::SeqCst) != 0 {
            return None;
        }
        Some([
            self.reader.load(Ordering::SeqCst),
            self.dispatcher.load(Ordering::SeqCst),
            self.script.load(Ordering::SeqCst),
            self.applications.0.load(Ordering::SeqCst),
            self.applications.1.load(Ordering::SeqCst),
        ])
    }

    /// The lane was there before this time as often as its turn says.
    fn count(&self, arrivals: &AtomicU64, turn: u64) {
        if arrivals.fetch_add(1, Ordering::SeqCst) != turn {
            self.astray.store(1, Ordering::SeqCst);
        }
    }
}

impl Gate for Arrivals {
    fn arrive(&self, lane: u8, turn: u64) {
        match lane {
            0 => self.count(&self.reader, turn),
            1 => self.count(&self.dispatcher, turn),
            2 => self.count(&self.script, turn),
            10 => self.count(&self.applications.0, turn),
            11 => self.count(&self.applications.1, turn),
            _ => self.astray.store(1, Ordering::SeqCst),
        }
    }
}
