//! Settles a core that no thread calls any more, until nothing is left to do.
//!
//! Two args wait. The second sends window 1 something, and its owner finishes what it is given. In this order the calls
//! have these replies:
//!
//! ```text
//! Pump, Pump, Pump                              Dispatched, Dispatched, Idle
//! Tick                                          Named(0)
//! Receive 1                                     Got(1 ..)
//! Finish 1 1                                    Done
//! Receive 1                                     Empty
//! ```
//!
//! All are calls of the caller, who has the number 0. They hand in time 0, so the clock stands still.
ghost use Rattle.std.specs.Prelude.{◌≤◌, ◌+◌, OnOk, OnErr};
ghost use Rattle.dispatch_history.specs.History.{opened};
ghost use Rattle.dispatch_history.specs.Settled.{Settled};
ghost use Rattle.dispatch_core.specs.Recorded.{IsSound, history_of};
ghost use Rattle.replay_actors.specs.Settling.{receives_from};
ghost use Rattle.replay_actors.specs.Came.{Came, CameSome};
ghost use Rattle.replay_actors.specs.Finishing.{IsQuiet};
ghost use Rattle.window_snapshot.specs.Mask.{mask_has};

use crate::pumping::{look, pump_out};
use crate::receiving::receive_all;
use dispatch_core::Core;
use std::alloc::AllocError;
use window_snapshot::mask_has;

/// Does everything that is left to do, in calls of number 0 at time 0: pumps until nothing waits, ticks once, and
/// receives from the channels 1 to `channels`, one after another, until there is nothing more. The owners of the
/// channels in the mask `finishing` finish each message that they are given. If memory runs out, only a part of this is
/// done.
pub fn settle(core: &mut Core, channels: u32, finishing: u64) -> Result<(), AllocError>
    ensures came { OnOk result (Came (mask_has finishing) core.old (receives_from (channels + 1)) core.new) }

    // Where no more channels were opened, and what the owners of `finishing` were given before was finished, nothing is
    // left to do.
    ensures settled { IsQuiet (mask_has finishing) (history_of core.old.entries)
        → opened (history_of core.old.entries) ≤ channels
        → OnOk result (Settled core.new.displays (history_of core.new.entries) (mask_has finishing)) }
    ensures err { OnErr result (CameSome (mask_has finishing) core.old core.new) }
    ensures sound { IsSound core.new }
{
    pump_out(core)?;
    look(core)?;
    for place in 0..channels {
        receive_all(core, place + 1, mask_has(finishing, place + 1))?;
    }
    Ok(())
}
