//! Calls of the dispatcher, and the history entries that they make.
ghost use Rattle.std.specs.Prelude.{◌≡◌};
ghost use Rattle.dispatch_calls.specs.Moments.{moment_of};

use crate::reply::Reply;
use crate::terms::Terms;
use input_types::{Args, DeviceId, DisplayId, Moment};
use window_snapshot::Snapshot;

/// One call of the dispatcher. `now` is the time of the call, and advances the clock if it is later.
#[derive(Drop)]
pub enum Call {
    /// Opens a channel on these terms.
    Open {
        terms: Terms,
    },
    /// Replaces the windows by these.
    Windows {
        now: Moment,
        snapshot: Snapshot,
    },
    /// Requests the focus of a display for a channel, or for none. Any number may be requested.
    FocusOn {
        now: Moment,
        display: DisplayId,
        channel: Option<u32>,
        /// Whether keys go to the focused window of this display from now on. If not, they go where they went.
        keys: bool,
    },
    /// Queues args of a device behind those that wait.
    Notify {
        now: Moment,
        args: Args,
    },
    /// Dispatches the first waiting args, or repeats a held key.
    Pump {
        now: Moment,
    },
    /// Reports each window unresponsive whose oldest message was left unfinished for too long.
    Tick {
        now: Moment,
    },
    /// The owner of a channel receives its next message.
    Receive {
        channel: u32,
    },
    /// The owner of a channel finishes a message.
    Finish {
        now: Moment,
        channel: u32,
        seq: u64,
    },
    /// A spy takes the pointers of a device that it holds from all other windows.
    Pilfer {
        now: Moment,
        channel: u32,
        device: DeviceId,
    },
    /// Closes a channel for good.
    Remove {
        now: Moment,
        channel: u32,
    },
}

impl Call {
    /// The time that it carries, 0 if it has none.
    pub fn moment(&self) -> Moment
        ensures { result ≡ moment_of self.now }
    {
        match self {
            Call::Open { .. } | Call::Receive { .. } => Moment::zero(),
            Call::Windows { now, .. }
            | Call::FocusOn { now, .. }
            | Call::Notify { now, .. }
            | Call::Pump { now }
            | Call::Tick { now }
            | Call::Finish { now, .. }
            | Call::Pilfer { now, .. }
            | Call::Remove { now, .. } => *now,
        }
    }
}

/// A call with its reply: one entry of the dispatcher's history.
#[derive(Drop)]
pub struct Entry {
    /// The number of the caller. No rule of the dispatcher reads it.
    pub seat: u64,
    pub call: Call,
    pub reply: Reply,
}
