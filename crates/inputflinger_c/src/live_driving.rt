//! What is due in a live service.
ghost use Rattle.std.specs.Prelude.{◌≡◌};
ghost use Rattle.plain_calls.specs.Calling.{Reads, Replies, ok_of, answer_status, written};
ghost use Rattle.plain_calls.specs.Driving.{IsDue, CaughtUp};
ghost use Rattle.plain_calls.specs.Numbers.{moment_of};
ghost use Rattle.plain_calls.specs.Replies.{advance_status};
ghost use Rattle.inputflinger_c.specs.Serving.{OnService};

use crate::service::Service;
use plain_calls::driving;
use plain_calls::status::FREE;
use std::alloc::Global;

/// Writes the first time at which something is due; see `driving::due`. `FREE` if the handle is free.
#[unsafe(no_mangle)]
pub extern "C" fn inputflinger_proved_live_due(
    alloc: Global,
    live: &mut Service,
    moment_us: &mut u64,
) -> u32
    ensures { OnService live.old.cell.state result live.new.cell.state (moment_us.new ≡ moment_us.old)
        (λ old new. (new ≡ old) × Replies answer_status result
        (λ r. IsDue old r × (moment_us.new ≡ written (λ t. t) r moment_us.old))) }
{
    let Some(mut service) = live.take(alloc) else {
        return FREE;
    };
    let status = driving::due(&service, moment_us);
    live.put(service);
    status
}

/// Runs everything that is due up to now; see `driving::advance`. `FREE` if the handle is free.
#[unsafe(no_mangle)]
pub extern "C" fn inputflinger_proved_live_advance(
    alloc: Global,
    live: &mut Service,
    now_us: u64,
    mask: &mut u64,
) -> u32
    ensures { OnService live.old.cell.state result live.new.cell.state (mask.new ≡ mask.old)
        (λ old new. Reads (moment_of now_us) result ((new ≡ old) × (mask.new ≡ mask.old))
        (λ now. Replies advance_status result (λ r. CaughtUp now old new r
        × (mask.new ≡ written (λ m. m) (ok_of r) mask.old)))) }
{
    let Some(mut service) = live.take(alloc) else {
        return FREE;
    };
    let status = driving::advance(&mut service, now_us, mask);
    live.put(service);
    status
}
