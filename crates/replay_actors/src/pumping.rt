//! Pumps until nothing waits.
ghost use Rattle.std.specs.Prelude.{◌≡◌, ◌<◌, ℕ, Bool, true, IfOk, OnOk, OnErr, if◌then◌else◌};
ghost use Rattle.dispatch_core.specs.Recorded.{Recorded, history_of, IsSound};
ghost use Rattle.replay_actors.specs.Settling.{pumps_out, looks, receives_from};
ghost use Rattle.replay_actors.specs.Came.{Came, pumps_left};

use dispatch_calls::{Call, Reply};
use dispatch_core::Core;
use input_types::Moment;
use std::alloc::AllocError;

/// The number of the caller.
pub(crate) const CALLER: u64 = 0;

/// One pump. The answer is whether it found something to do.
fn pump(core: &mut Core) -> Result<bool, AllocError>
    ensures came { (f : ℕ → Bool) (start : Recorded) → Came f start pumps_out core.old
        → IfOk result (λ more. Came f start (if more then pumps_out else looks) core.new) }
    ensures less { IfOk result (λ more. more ≡ true
        → pumps_left core.new.displays (history_of core.new.entries)
        < pumps_left core.old.displays (history_of core.old.entries)) }
    ensures err { OnErr result (core.new ≡ core.old) }
    ensures sound { IsSound core.new }
{
    match core.apply(
        CALLER,
        Call::Pump {
            now: Moment::zero(),
        },
    ) {
        Ok(reply) => match reply {
            Reply::Idle => Ok(false),
            _ => Ok(true),
        },
        Err(error) => Err(error),
    }
}

/// Pumps until no args wait and no repeat of a key is due.
pub(crate) fn pump_out(core: &mut Core) -> Result<(), AllocError>
    ensures came { (f : ℕ → Bool) (start : Recorded) → Came f start pumps_out core.old
        → OnOk result (Came f start looks core.new) }
    ensures err { (f : ℕ → Bool) (start : Recorded) → Came f start pumps_out core.old
        → OnErr result (Came f start pumps_out core.new) }
    ensures sound { IsSound core.new }
{
    'pumping: while pump(core)? {}
    Ok(())
}

/// One tick.
pub(crate) fn look(core: &mut Core) -> Result<(), AllocError>
    ensures came { (f : ℕ → Bool) (start : Recorded) → Came f start looks core.old
        → OnOk result (Came f start (receives_from 1) core.new) }
    ensures err { OnErr result (core.new ≡ core.old) }
    ensures sound { IsSound core.new }
{
    match core.apply(
        CALLER,
        Call::Tick {
            now: Moment::zero(),
        },
    ) {
        Ok(_) => Ok(()),
        Err(error) => Err(error),
    }
}
