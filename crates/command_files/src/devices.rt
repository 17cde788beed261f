//! The devices of a session: their numbers, and their readers.
ghost use Rattle.std.specs.Prelude.{◌≡◌, ◌+◌, ◌<◌, [], length, IfOk};
ghost use Rattle.std.specs.List.{All};
ghost use Rattle.device_reader.specs.Cooked.{DeviceStandsFor};
ghost use Rattle.device_reader.specs.CookedList.{ReadersStandFor};
ghost use Rattle.session_plan.specs.Valid.{IsKind, IsDisplay, IsPlan};
ghost use Rattle.session_plan.specs.View.{plan_view};
ghost use Rattle.raw_events.specs.Line.{known};
ghost use Rattle.command_files.specs.Cooked.{display_at, device_plan, plans_of};
ghost use Rattle.command_files.specs.Devices.{devices_of};

use device_reader::touch_mapper::Cook;
use device_reader::{DeviceReader, Readers};
use input_types::{DeviceId, DisplayId};
use session_plan::{DeviceKind, Display, Plan};
use std::alloc::{AllocError, Global};

/// The display with this number among those of a session.
fn display_at(displays: &[Display], number: DisplayId) -> Display
    requires within { number < length displays.now }
    requires valid { All IsDisplay displays.now }
    ensures value { result ≡ display_at displays.now number }
    ensures valid { IsDisplay result }
{
    displays[usize::from(number.get())]
}

/// The reader of a device that has had no event, of a session with these displays.
fn reader_of(
    alloc: Global,
    displays: &[Display],
    number: DeviceId,
    kind: &DeviceKind,
) -> Result<DeviceReader, AllocError>
    requires displays { All IsDisplay displays.now }
    requires kind { IsKind (length displays.now) kind.now }
    ensures stands { IfOk result (DeviceStandsFor (device_plan displays.now number kind.now) []) }
    ensures number { IfOk result (λ r. r.device ≡ number) }
{
    match kind {
        DeviceKind::Touch {
            slots,
            x,
            y,
            display,
        } => {
            let on = display_at(displays, *display);
            let cook = Cook::new(*x, *y, on.width, on.height, on.rotation).unwrap();
            Ok(DeviceReader::touch(number, *slots, cook))
        }
        DeviceKind::Keys { layout } => Ok(DeviceReader::keys(alloc, number, layout.clone()?)),
    }
}

/// The number of the device at an index of a session, from 0.
pub fn device_number(place: usize) -> DeviceId
    requires { place < 8 }
    ensures { result ≡ place + 1 }
{
    DeviceId::new(place as u8 + 1).unwrap()
}

/// The devices' paths with their numbers.
pub fn numbered_devices(alloc: Global, plan: &Plan) -> Result<Vec<(String, DeviceId)>, AllocError>
    requires { IsPlan plan.now }
    ensures { IfOk result (λ v. known v.items ≡ devices_of (plan_view plan.now)) }
{
    let mut devices = Vec::new(alloc);
    for (place, device) in plan.devices.iter().enumerate() {
        devices.push((
            String::from_str(alloc, device.path.as_str())?,
            device_number(place),
        ))?;
    }
    Ok(devices)
}

/// The readers of all devices, before the first event.
pub fn readers_of(alloc: Global, plan: &Plan) -> Result<Readers, AllocError>
    requires { IsPlan plan.now }
    ensures { IfOk result (ReadersStandFor (plans_of (plan_view plan.now)) []) }
{
    let mut readers = Vec::new(alloc);
    for (place, device) in plan.devices.iter().enumerate() {
        let reader = reader_of(alloc, &plan.displays, device_number(place), &device.kind)?;
        readers.push(reader)?;
    }
    Ok(Readers::new(readers))
}
