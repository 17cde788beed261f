//! The args of a whole recording.
ghost use Rattle.std.specs.Prelude.{◌≡◌, List, [], ◌++◌, map, reverse, IfOk, OnOk};
ghost use Rattle.device_reader.specs.All.{AreNumbered};
ghost use Rattle.device_reader.specs.Cooked.{DevicePlan};
ghost use Rattle.device_reader.specs.CookedList.{cooked, AllStandFor};

use crate::reader::DeviceReader;
use crate::readers::Readers;
use input_types::{Args, Moment};
use raw_events::RawEvent;
use std::alloc::{AllocError, Global};

/// The args that the events of a recording give, each with its time, by the readers of all devices in the order of
/// their numbers, from 1 on.
///
/// The time of each is the latest one of the events that gave args up to it, so times never fall. An event of a device
/// without a reader gives nothing.
pub fn cook(
    alloc: Global,
    readers: Vec<DeviceReader>,
    events: &[RawEvent],
) -> Result<Vec<(Moment, Args)>, AllocError>
    requires { AreNumbered readers.items }
    ensures { (plans : List DevicePlan) → AllStandFor plans [] readers.items → IfOk result (λ v. reverse v.items
        ≡ cooked plans (reverse events.now)) }
{
    let mut readers = Readers::new(readers);
    let mut given = Vec::new(alloc);
    let mut args = Vec::new(alloc);
    for event in events {
        args.clear();
        let moment = readers.take(*event, &mut args)?;
        push_all(&mut given, moment, &args)?;
    }
    Ok(given)
}

/// Appends some args with their time.
fn push_all(
    given: &mut Vec<(Moment, Args)>,
    moment: Moment,
    args: &[Args],
) -> Result<(), AllocError>
    ensures { OnOk result (given.new.items ≡ given.old.items ++ map (λ a. (moment, a)) args.now) }
{
    for a in args {
        given.push((moment, *a))?;
    }
    Ok(())
}
