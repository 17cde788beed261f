//! What happens to a cursor.
ghost use Rattle.std.specs.Prelude.{◌≡◌};
ghost use Rattle.cursor_core.specs.Calls.{moment_of};

use input_types::Moment;
use window_snapshot::Snapshot;

/// One call of a cursor. `now` is the time of the call, and advances the clock if it is later.
#[derive(Drop)]
pub enum CursorCall {
    /// The mouse moved by this many pixels, right and down.
    Moved { now: Moment, dx: i64, dy: i64 },
    /// Replaces the windows by these.
    Windows { now: Moment, snapshot: Snapshot },
    /// Closes a channel for good. If the channel is not live, only the clock changes.
    Remove { now: Moment, channel: u32 },
}

impl CursorCall {
    /// The time of the call.
    pub fn moment(&self) -> Moment
        ensures { result ≡ moment_of self.now }
    {
        match self {
            CursorCall::Moved { now, .. }
            | CursorCall::Windows { now, .. }
            | CursorCall::Remove { now, .. } => *now,
        }
    }
}
