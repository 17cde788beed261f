//! The args from a recording, for a run whose order a file gives or threads take.
ghost use Rattle.std.specs.Prelude.{◌≡◌, ◌++◌, [], map, reverse, IfOk, OnOk};
ghost use Rattle.device_reader.specs.CookedList.{ReadersStandFor};
ghost use Rattle.given_run.specs.Planned.{cooked_of};
ghost use Rattle.session_plan.specs.Plan.{PlanData};
ghost use Rattle.command_files.specs.Cooked.{plans_of};
ghost use Rattle.command_files.specs.Planned.{given};

use command_files::cook_event;
use device_reader::Readers;
use given_run::Cooked;
use input_types::{Args, Moment};
use raw_events::RawEvent;
use std::alloc::{AllocError, Global};

/// The most args of a recording that is checked or raced.
pub(crate) const GIVEN_LIMIT: usize = 20000;

/// Appends some args, with their time.
fn push_all(all: &mut Vec<Cooked>, moment: Moment, args: &[Args]) -> Result<(), AllocError>
    ensures { OnOk result (map cooked_of all.new.items ≡ map cooked_of all.old.items ++ map
        (λ a. record { moment = moment; args = a }) args.now) }
{
    for a in args {
        all.push(Cooked { moment, args: *a })?;
    }
    Ok(())
}

/// What the devices give for some events.
pub(crate) fn cook_events(
    alloc: Global,
    events: &[RawEvent],
    readers: &mut Readers,
) -> Result<Vec<Cooked>, AllocError>
    ensures { (p : PlanData) → ReadersStandFor (plans_of p) [] readers.old
        → IfOk result (λ all. map cooked_of all.items ≡ given p (reverse events.now)) }
{
    let mut all = Vec::new(alloc);
    let mut args = Vec::new(alloc);
    for event in events {
        let moment = cook_event(*event, &mut args, readers)?;
        push_all(&mut all, moment, &args)?;
    }
    Ok(all)
}
