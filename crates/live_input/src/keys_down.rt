//! The keys that are down on devices.
ghost use Rattle.std.specs.Prelude.{ℕ, List};
ghost use Rattle.dispatch_history.specs.Effect.{Effect, past_of};
ghost use Rattle.dispatch_history.specs.Queue.{down_on};
ghost use Rattle.dispatcher.specs.Down.{IsFirstDown};
ghost use Rattle.live_input.specs.Standing.{LiveIs};

use crate::live::Live;
use input_types::DeviceId;

impl Live {
    /// The first key that is down on a device by the args that were accepted, from a scan code on; None if no key from
    /// there on is down. It does not matter whether a client was sent the key.
    pub fn first_key(&self, device: DeviceId, from: u32) -> Option<u16>
        ensures { (ds : List ℕ) (es : List Effect) → LiveIs ds es self.now
            → IsFirstDown (down_on (past_of es) device).keys from result }
    {
        self.dispatcher.first_key(device, from)
    }
}
