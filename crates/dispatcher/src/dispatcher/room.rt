//! Room for args and pumps.
ghost use Rattle.std.specs.Prelude.{◌≡◌, ◌≤◌, List, OnErr, OnOk, IsOk};
ghost use Rattle.dispatch_history.specs.Effect.{Effect};
ghost use Rattle.dispatcher.specs.Dispatching.{IsAfter, StandsFor, with_room, with_args_room};

use super::Dispatcher;
use crate::reserving::reserve;
use std::alloc::AllocError;

impl Dispatcher {
    /// Makes room for the next `n` calls of `Notify` and for the next `n` of `Pump`, so that they cannot run out of
    /// memory. Only a Notify takes from the room for args, at most that of one. A Notify leaves the room for pumps, and
    /// a Pump takes that of one. Any other answered call takes all room for pumps.
    ///
    /// For each pump there is room for 131 messages in each live channel: 128 may be cancels. If memory runs out,
    /// nothing changes.
    pub fn reserve(&mut self, n: u32) -> Result<(), AllocError>
        ensures ok { OnOk result (self.new ≡ with_room n self.old) }
        ensures err { OnErr result (self.new ≡ self.old) }
        ensures reserved { n ≤ self.old.queue.spare → n ≤ self.old.queue.pumps → IsOk result }
        ensures stays { (es : List Effect) → StandsFor es self.old → StandsFor es self.new }
        ensures known { (es : List Effect) → IsAfter es self.old → IsAfter es self.new }
    {
        reserve(&mut self.tables, n)
    }

    /// Makes room for the next `n` args alone. If memory runs out, nothing changes.
    pub fn reserve_args(&mut self, n: u32) -> Result<(), AllocError>
        ensures ok { OnOk result (self.new ≡ with_args_room n self.old) }
        ensures err { OnErr result (self.new ≡ self.old) }
        ensures reserved { n ≤ self.old.queue.spare → IsOk result }
        ensures stays { (es : List Effect) → StandsFor es self.old → StandsFor es self.new }
        ensures known { (es : List Effect) → IsAfter es self.old → IsAfter es self.new }
    {
        self.tables.queueing.reserve(n)
    }
}
