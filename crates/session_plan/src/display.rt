//! The displays of a session.
ghost use Rattle.std.specs.Prelude.{[], ◌≡◌, ◌<◌, ◌≤◌, length, map, IfOk};
ghost use Rattle.std.specs.List.{All};
ghost use Rattle.toml.specs.View.{view};
ghost use Rattle.session_plan.specs.declared.key.Place.TheVariants.{ExtraDisplay};
ghost use Rattle.session_plan.specs.Display.{display_at, display_number, display_of, displays_of, extra_displays_of, rotation_of, turned};
ghost use Rattle.session_plan.specs.Gives.{Gives};
ghost use Rattle.session_plan.specs.Keys.{key_of};
ghost use Rattle.session_plan.specs.Reading.{each};
ghost use Rattle.session_plan.specs.Valid.{IsDisplay};

use crate::error::PlanError;
use crate::key::{Place, key_text};
use crate::plan::Display;
use crate::reading::{at_most, number_at, number_or, required, tables_at};
use input_types::{DisplayId, Rotation};
use std::alloc::Global;
use toml::Value;

/// The most displays beside display 0.
const MAX_EXTRA: usize = 3;

/// The rotation by this many degrees, if they are quarter turns.
fn turned(degrees: i64) -> Option<Rotation>
    ensures { result ≡ turned degrees }
{
    match degrees {
        0 => Some(Rotation::R0),
        90 => Some(Rotation::R90),
        180 => Some(Rotation::R180),
        270 => Some(Rotation::R270),
        _ => None,
    }
}

/// How far a display is turned.
fn rotation(alloc: Global, place: Place, key: &str, value: &Value) -> Result<Rotation, PlanError>
    ensures { Gives (λ r. r) result (rotation_of (key_of place key.now) (view value.now)) }
{
    let Some(degrees) = value.as_integer() else {
        return Err(PlanError::Wrong {
            key: key_text(alloc, place, key)?,
        });
    };
    match turned(degrees) {
        Some(rotation) => Ok(rotation),
        None => Err(PlanError::Wrong {
            key: key_text(alloc, place, key)?,
        }),
    }
}

/// The display that the table at this place describes.
#[tactic(auto, unfolding(crate::specs::Display::display_of))]
fn display_of(alloc: Global, place: Place, table: &Value) -> Result<Display, PlanError>
    ensures value { Gives (λ d. d) result (display_of place (view table.now)) }
    ensures valid { IfOk result IsDisplay }
{
    let width = number_at(alloc, place, "width", 1, 16384, table)?;
    let height = number_at(alloc, place, "height", 1, 16384, table)?;
    let rotation = match table.get("rotation") {
        Some(value) => rotation(alloc, place, "rotation", value)?,
        None => Rotation::R0,
    };
    Ok(Display {
        width: width as u16,
        height: height as u16,
        rotation,
    })
}

/// Display 0 of a session.
#[tactic(auto, unfolding(crate::specs::Display::display_at))]
fn display(alloc: Global, document: &Value) -> Result<Display, PlanError>
    ensures value { Gives (λ d. d) result (display_at (view document.now)) }
    ensures valid { IfOk result IsDisplay }
{
    let table = required(alloc, Place::Document, "display", document)?;
    if !table.is_table() {
        return Err(PlanError::Wrong {
            key: key_text(alloc, Place::Document, "display")?,
        });
    }
    display_of(alloc, Place::Display, table)
}

/// The displays that these tables describe, from display 1 on.
fn each_display(alloc: Global, tables: &[Value]) -> Result<Vec<Display>, PlanError>
    ensures value { Gives
        (λ v. v.items) result (each (λ k found d. display_of (ExtraDisplay k) d) 1 [] (map view tables.now)) }
    ensures len { IfOk result (λ v. length v.items ≡ length tables.now) }
    ensures valid { IfOk result (λ v. All IsDisplay v.items) }
{
    let mut displays = Vec::new(alloc);
    for (i, table) in tables.iter().enumerate() {
        displays.push(display_of(alloc, Place::ExtraDisplay(i + 1), table)?)?;
    }
    Ok(displays)
}

/// The displays of a session beside display 0.
#[tactic(auto, unfolding(crate::specs::Display::extra_displays_of, crate::specs::Reading::tables_at, crate::specs::Reading::tables, crate::specs::Keys::key_of))]
fn extra_displays(alloc: Global, document: &Value) -> Result<Vec<Display>, PlanError>
    ensures value { Gives (λ v. v.items) result (extra_displays_of (view document.now)) }
    ensures few { IfOk result (λ v. length v.items ≤ 3) }
    ensures valid { IfOk result (λ v. All IsDisplay v.items) }
{
    let tables = tables_at(alloc, Place::Document, "extra_display", document)?;
    at_most(alloc, Place::Document, "extra_display", MAX_EXTRA, tables)?;
    each_display(alloc, tables)
}

/// The displays of a session.
#[tactic(auto, unfolding(crate::specs::Display::displays_of))]
pub(crate) fn displays(alloc: Global, document: &Value) -> Result<Vec<Display>, PlanError>
    ensures value { Gives (λ v. v.items) result (displays_of (view document.now)) }
    ensures some { IfOk result (λ v. 1 ≤ length v.items) }
    ensures few { IfOk result (λ v. length v.items ≤ 4) }
    ensures valid { IfOk result (λ v. All IsDisplay v.items) }
{
    let first = display(alloc, document)?;
    let mut displays = extra_displays(alloc, document)?;
    displays.insert(0, first)?;
    Ok(displays)
}

/// The display that a table of a session with this many displays names; display 0 if it names none.
#[tactic(auto, unfolding(crate::specs::Display::display_number))]
pub(crate) fn display_number(
    alloc: Global,
    displays: usize,
    place: Place,
    table: &Value,
) -> Result<DisplayId, PlanError>
    requires some { 1 ≤ displays }
    requires few { displays ≤ 4 }
    ensures value { Gives (λ d. d) result (display_number displays place (view table.now)) }
    ensures range { IfOk result (λ d. d < displays) }
{
    let greatest = (displays - 1) as i64;
    let number = number_or(alloc, 0, place, "display", 0, greatest, table)?;
    Ok(DisplayId::new(number as u8).unwrap())
}
