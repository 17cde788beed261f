//! The keys that are down on devices.
ghost use Rattle.std.specs.Prelude.{ℕ, List};
ghost use Rattle.dispatch_history.specs.Effect.{Effect, past_of};
ghost use Rattle.dispatch_history.specs.Queue.{down_on};
ghost use Rattle.dispatcher.specs.Dispatching.{IsAfter};
ghost use Rattle.dispatcher.specs.Down.{IsFirstDown};

use crate::dispatcher::Dispatcher;
use input_types::DeviceId;

impl Dispatcher {
    /// The first key that is down on a device by the args that were accepted, from a scan code on; None if no key from
    /// there on is down. Whether a window was sent the key does not matter.
    pub fn first_key(&self, device: DeviceId, from: u32) -> Option<u16>
        ensures { (es : List Effect) → IsAfter es self.now
            → IsFirstDown (down_on (past_of es) device).keys from result }
    {
        self.tables.queueing.first_key(device, from)
    }
}
