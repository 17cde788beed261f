//! The devices of a session.
ghost use Rattle.std.specs.Prelude.{[], ◌≡◌, ◌≤◌, ◌==◌, ◌||◌, not, ℕ, ℤ, map, length, IfOk, IfSome, ◌≤ℤ◌};
ghost use Rattle.std.specs.List.{All, list_all};
ghost use Rattle.toml.specs.View.{view};
ghost use Rattle.session_plan.specs.Devices.{axis_at, both, device_of, devices_of, is_new, is_path, keys_of, layout_text, ordered, span_in, span_of, touch_of};
ghost use Rattle.session_plan.specs.Gives.{Gives};
ghost use Rattle.session_plan.specs.Reading.{as_list, each};
ghost use Rattle.session_plan.specs.Valid.{IsAxis, IsDevice, IsKind};
ghost use Rattle.session_plan.specs.View.{device_view};

use crate::display::display_number;
use crate::error::PlanError;
use crate::key::{Place, key_text};
use crate::plan::{DeviceKind, DevicePlan};
use crate::reading::{at_most, coordinate, elements, number_or, required, tables_at, text_at};
use input_types::Axis;
use key_layout::{Layout, LayoutError};
use std::alloc::Global;
use toml::Value;

/// The most devices of a session.
const MAX_DEVICES: usize = 8;

/// The least and the greatest raw position of an axis, which may be too great for one.
#[derive(Clone, Copy)]
pub(crate) struct Span {
    min: i64,
    max: i64,
}

/// Whether no byte is a space or a tab.
fn has_no_blank(bytes: &[u8]) -> bool
    ensures { result ≡ list_all (λ c. not (c == 32 || c == 9)) bytes.now }
{
    bytes.iter().all(|c| !(*c == b' ' || *c == b'\t'))
}

/// Whether a text begins with a slash and has no blank.
fn is_path(path: &str) -> bool
    ensures { result ≡ is_path path.now }
{
    match path.as_bytes() {
        [first, rest @ ..] => *first == b'/' && has_no_blank(rest),
        [] => false,
    }
}

/// Whether no device has the path.
fn is_new(devices: &[DevicePlan], path: &str) -> bool
    ensures { result ≡ is_new (map device_view devices.now) path.now }
{
    for device in devices {
        if device.path.as_str() == path {
            return false;
        }
    }
    true
}

/// The ends of an axis, if they are in order.
fn ordered(min: i64, max: i64) -> Option<Span>
    ensures value { result ≡ ordered min max }
    ensures ordered { IfSome result (λ s. s.min ≤ℤ s.max) }
{
    if min <= max {
        Some(Span { min, max })
    } else {
        None
    }
}

/// The ends of an axis, where both are there and in order.
fn both(min: Option<i64>, max: Option<i64>) -> Option<Span>
    ensures value { result ≡ both min max }
    ensures ordered { IfSome result (λ s. s.min ≤ℤ s.max) }
{
    let min = min?;
    let max = max?;
    ordered(min, max)
}

/// The ends of an axis that these values are.
fn span_of(values: &[Value]) -> Option<Span>
    ensures value { result ≡ span_of (map view values.now) }
    ensures ordered { IfSome result (λ s. s.min ≤ℤ s.max) }
{
    match values {
        [min, max] => both(min.as_integer(), max.as_integer()),
        _ => None,
    }
}

/// The ends of an axis that an array has.
fn span_in(value: &Value) -> Option<Span>
    ensures value { result ≡ span_in (as_list (view value.now)) }
    ensures ordered { IfSome result (λ s. s.min ≤ℤ s.max) }
{
    let values = elements(value)?;
    span_of(values)
}

/// The axis at a key of device k.
#[tactic(auto, unfolding(crate::specs::Devices::axis_at))]
fn axis(alloc: Global, k: usize, key: &str, table: &Value) -> Result<Axis, PlanError>
    ensures value { Gives (λ a. a) result (axis_at k key.now (view table.now)) }
    ensures valid { IfOk result IsAxis }
{
    let place = Place::Device(k);
    let value = required(alloc, place, key, table)?;
    let Some(span) = span_in(value) else {
        return Err(PlanError::Wrong {
            key: key_text(alloc, place, key)?,
        });
    };
    let min = coordinate(alloc, place, key, span.min)?;
    let max = coordinate(alloc, place, key, span.max)?;
    Ok(Axis { min, max })
}

/// Touch device k of a session with this many displays.
#[tactic(auto, unfolding(crate::specs::Devices::touch_of))]
fn touch(alloc: Global, displays: usize, k: usize, table: &Value) -> Result<DeviceKind, PlanError>
    requires some { 1 ≤ displays }
    requires few { displays ≤ 4 }
    ensures value { Gives (λ d. d) result (touch_of displays k (view table.now)) }
    ensures valid { IfOk result (IsKind displays) }
{
    let display = display_number(alloc, displays, Place::Device(k), table)?;
    let slots = number_or(alloc, 10, Place::Device(k), "slots", 1, 16, table)?;
    let x = axis(alloc, k, "x", table)?;
    let y = axis(alloc, k, "y", table)?;
    Ok(DeviceKind::Touch {
        slots: slots as u8,
        x,
        y,
        display,
    })
}

/// The text of the layout of device k.
fn layout_text(alloc: Global, k: usize, table: &Value) -> Result<&str, PlanError>
    ensures { Gives (λ text. text.now) result (layout_text k (view table.now)) }
{
    let Some(value) = table.get("layout") else {
        return Ok("");
    };
    match value.as_str() {
        Some(text) => Ok(text),
        None => Err(PlanError::Wrong {
            key: key_text(alloc, Place::Device(k), "layout")?,
        }),
    }
}

/// What device k with keys is.
#[tactic(auto, unfolding(crate::specs::Devices::keys_of))]
fn keys(alloc: Global, k: usize, table: &Value) -> Result<DeviceKind, PlanError>
    requires { k ≤ 8 }
    ensures value { Gives (λ d. d) result (keys_of k (view table.now)) }
    ensures touchless { IfOk result (λ d. (displays : ℕ) → IsKind displays d) }
{
    let text = layout_text(alloc, k, table)?;
    match Layout::read(alloc, text) {
        Ok(layout) => Ok(DeviceKind::Keys { layout }),
        Err(LayoutError::Memory) => Err(PlanError::Memory),
        Err(error) => Err(PlanError::BadLayout {
            device: k as u8,
            error,
        }),
    }
}

/// Reads device k of a session with this many displays, and appends it to those that were read.
#[tactic(auto, unfolding(crate::specs::Devices::device_of))]
fn device(
    alloc: Global,
    displays: usize,
    k: usize,
    found: &[DevicePlan],
    table: &Value,
) -> Result<DevicePlan, PlanError>
    requires some { 1 ≤ displays }
    requires few { displays ≤ 4 }
    requires number { k ≤ 8 }
    ensures value { Gives device_view result (device_of displays k (map device_view found.now) (view table.now)) }
    ensures valid { IfOk result (IsDevice displays) }
{
    let place = Place::Device(k);
    let word = text_at(alloc, place, "kind", table)?;
    if !(word == "touch" || word == "keys") {
        return Err(PlanError::Wrong {
            key: key_text(alloc, place, "kind")?,
        });
    }
    let path = text_at(alloc, place, "path", table)?;
    if !(is_path(path) && is_new(found, path)) {
        return Err(PlanError::Wrong {
            key: key_text(alloc, place, "path")?,
        });
    }
    let kind = if word == "touch" {
        touch(alloc, displays, k, table)?
    } else {
        keys(alloc, k, table)?
    };
    let path = String::from_str(alloc, path)?;
    Ok(DevicePlan { path, kind })
}

/// The devices that these tables describe.
fn each_device(
    alloc: Global,
    displays: usize,
    tables: &[Value],
) -> Result<Vec<DevicePlan>, PlanError>
    requires some { 1 ≤ displays }
    requires few { displays ≤ 4 }
    requires few_devices { length tables.now ≤ 8 }
    ensures value { Gives (λ v. map device_view v.items) result (each (device_of displays) 1 [] (map view tables.now)) }
    ensures len { IfOk result (λ v. length v.items ≡ length tables.now) }
    ensures valid { IfOk result (λ v. All (IsDevice displays) v.items) }
{
    let mut devices = Vec::new(alloc);
    for (i, table) in tables.iter().enumerate() {
        devices.push(device(alloc, displays, i + 1, &devices, table)?)?;
    }
    Ok(devices)
}

/// The devices of a session with this many displays.
#[tactic(auto, unfolding(crate::specs::Devices::devices_of))]
pub(crate) fn devices(
    alloc: Global,
    displays: usize,
    document: &Value,
) -> Result<Vec<DevicePlan>, PlanError>
    requires some { 1 ≤ displays }
    requires few { displays ≤ 4 }
    ensures value { Gives (λ v. map device_view v.items) result (devices_of displays (view document.now)) }
    ensures few { IfOk result (λ v. length v.items ≤ 8) }
    ensures valid { IfOk result (λ v. All (IsDevice displays) v.items) }
{
    let tables = tables_at(alloc, Place::Document, "device", document)?;
    at_most(alloc, Place::Document, "device", MAX_DEVICES, tables)?;
    each_device(alloc, displays, tables)
}
