//! A workload from a number.
ghost use Rattle.std.specs.Prelude.{◌≡◌, ◌≤◌, IfOk};
ghost use Rattle.session_plan.specs.Valid.{IsPlan};
ghost use Rattle.session_plan.specs.View.{plan_view};
ghost use Rattle.workload_maker.specs.Events.{events_of};
ghost use Rattle.workload_maker.specs.Making.{left_of};
ghost use Rattle.workload_maker.specs.Session.{session};

use crate::events::Events;
use crate::session::session;
use session_plan::Plan;
use std::alloc::{AllocError, Global};

/// The most packets of a workload.
pub const MAX_PACKETS: u32 = 200_000;

/// The most fingers of a workload, as many as its touch device has slots.
pub const MAX_FINGERS: u8 = 16;

/// The session of a workload, and the events of its touch device: this many packets, each about one of this many
/// fingers. Any seed will do; seeds that differ by 2,147,483,646 give the same. The events are made as they are asked
/// for, and only the session takes memory.
pub fn make(
    alloc: Global,
    seed: u32,
    packets: u32,
    fingers: u8,
) -> Result<(Plan, Events), AllocError>
    requires few_packets { packets ≤ 200000 }
    requires some_finger { 1 ≤ fingers }
    requires few_fingers { fingers ≤ 16 }
    ensures session { IfOk result (λ made. plan_view made.0 ≡ session) }
    ensures valid { IfOk result (λ made. IsPlan made.0) }
    ensures events { IfOk result (λ made. left_of made.1 ≡ events_of seed packets fingers) }
{
    let plan = session(alloc)?;
    Ok((plan, Events::new(seed, packets, fingers)))
}
