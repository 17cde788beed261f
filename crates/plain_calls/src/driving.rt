//! What is due.
ghost use Rattle.std.specs.Prelude.{◌≡◌};
ghost use Rattle.plain_calls.specs.Calling.{Reads, Replies, ok_of, answer_status, written};
ghost use Rattle.plain_calls.specs.Driving.{IsDue, CaughtUp};
ghost use Rattle.plain_calls.specs.Numbers.{moment_of};
ghost use Rattle.plain_calls.specs.Replies.{advance_status};

use crate::numbers::moment_of;
use crate::status::{MEMORY, NOTHING, OK, RANGE};
use live_input::Limited;

/// Writes the first time at which something is due; while something waits for memory, the clock. `NOTHING` if nothing
/// is due; `moment_us` then stays as it was.
pub fn due(live: &Limited, moment_us: &mut u64) -> u32
    ensures { Replies answer_status result
        (λ r. IsDue live.now r × (moment_us.new ≡ written (λ t. t) r moment_us.old)) }
{
    match live.due() {
        Some(due) => {
            *moment_us = due;
            OK
        }
        None => NOTHING,
    }
}

/// Runs everything that is due up to now, and writes the mask of the channels that were reported unresponsive. `MEMORY`
/// if memory runs out: a part may be done, and `mask` stays as it was.
pub fn advance(live: &mut Limited, now_us: u64, mask: &mut u64) -> u32
    ensures { Reads (moment_of now_us) result ((live.new ≡ live.old) × (mask.new ≡ mask.old))
        (λ now. Replies advance_status result (λ r. CaughtUp now live.old live.new r
        × (mask.new ≡ written (λ m. m) (ok_of r) mask.old))) }
{
    let Some(now) = moment_of(now_us) else {
        return RANGE;
    };
    match live.advance(now) {
        Ok(named) => {
            *mask = named;
            OK
        }
        Err(_) => MEMORY,
    }
}
