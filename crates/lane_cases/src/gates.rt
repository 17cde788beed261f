//! Gates that hold a lane until another has come, and report whether it did.
//!
//! If the script (lane 2) is held at its first call until the reader (lane 0) arrives at its third, the history begins
//! as follows, apart from calls of other lanes:
//!
//! ```text
//! the reader   Notify { now: 1000000, .. }
//! the reader   Notify { now: 1010000, .. }
//! the script   Windows { now: 0, .. }
//! ```
//!
//! A third call of the reader may come before or after that of the script. If the two lanes meet at their first
//! calls, both have arrived before either call is made, which lanes of one thread never do.
//!
//! No wait is endless: one that takes too many turns gives up and lets the lane continue, and the gate reports it.
use crate::flag::Flag;
use replay_actors::Gate;

/// A lane at one of its turns.
#[derive(Clone, Copy, PartialEq, Eq)]
pub(crate) struct Place {
    pub(crate) lane: u8,
    pub(crate) turn: u64,
}

/// A lane is held until another has arrived.
#[derive(Drop)]
pub(crate) struct Until {
    held: Place,
    awaited: Place,
    flag: Flag,
}

impl Until {
    /// The lane at `held` goes on once the lane at `awaited` has arrived.
    pub(crate) fn new(held: Place, awaited: Place) -> Until {
        Until {
            held,
            awaited,
            flag: Flag::new(),
        }
    }

    /// Whether the lane was held as it should be.
    pub(crate) fn held(&self) -> bool {
        self.flag.held()
    }
}

impl Gate for Until {
    fn arrive(&self, lane: u8, turn: u64) {
        let place = Place { lane, turn };
        if place == self.awaited {
            self.flag.raise();
        }
        if place == self.held {
            self.flag.wait();
        }
    }
}

/// Two lanes wait for each other.
#[derive(Drop)]
pub(crate) struct Meeting {
    places: (Place, Place),
    flags: (Flag, Flag),
}

impl Meeting {
    /// Each of the two goes on once both have arrived.
    pub(crate) fn new(one: Place, other: Place) -> Meeting {
        Meeting {
            places: (one, other),
            flags: (Flag::new(), Flag::new()),
        }
    }

    /// Whether both were there at once.
    pub(crate) fn held(&self) -> bool {
        self.flags.0.held() && self.flags.1.held()
    }
}

impl Gate for Meeting {
    fn arrive(&self, lane: u8, turn: u64) {
        let place = Place { lane, turn };
        if place == self.places.0 {
            self.flags.0.raise();
            self.flags.1.wait();
        }
        if place == self.places.1 {
            self.flags.1.raise();
            self.flags.0.wait();
        }
    }
}
