//! The run of a given order.
ghost use Rattle.std.specs.Prelude.{map};
ghost use Rattle.given_run.specs.Following.{Follows};
ghost use Rattle.given_run.specs.Planned.{whole_plan};
ghost use Rattle.stream_text.specs.OrderAsks.{line_of};
ghost use Rattle.schedule.specs.Planned.{IsRun};

use crate::cooked::Cooked;
use crate::fault::Fault;
use crate::progress::Progress;
use schedule::{Plan, Schedule};
use std::alloc::Global;
use stream_text::Order;

/// Opens the channels of a plan, and makes the calls of an order with these args.
pub fn followed(
    alloc: Global,
    plan: &Plan,
    cooked: &[Cooked],
    order: &Order,
) -> Result<Schedule, Fault>
    requires { IsRun plan.now }
    ensures { Follows (whole_plan plan.now cooked.now) (map line_of order.now) result }
{
    let mut progress = Progress::new(alloc, plan)?;
    for at in 0..order.len() {
        if !progress.line_at(plan, cooked, order, at)? {
            return Err(Fault::NoStep { before: at });
        }
    }
    Ok(progress.run)
}
