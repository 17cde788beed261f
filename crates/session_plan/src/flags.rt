//! The flags of a window.
ghost use Rattle.std.specs.Prelude.{◌≡◌, ◌||◌, not, map, option_map, is_some, bit_or};
ghost use Rattle.std.specs.List.{list_all};
ghost use Rattle.toml.specs.Data.{as_str};
ghost use Rattle.toml.specs.View.{view};
ghost use Rattle.bitflags.specs.Sets.{find_name};
ghost use Rattle.window_snapshot.specs.FlagTable.{flag_table};
ghost use Rattle.session_plan.specs.Flags.{bits_at, bits_for, bits_from, bits_of, fits_wall};
ghost use Rattle.session_plan.specs.Gives.{Gives};
ghost use Rattle.session_plan.specs.Keys.{key_of};

use crate::error::PlanError;
use crate::key::{Place, key_text};
use crate::reading::elements;
use bitflags::Flags;
use std::alloc::Global;
use toml::Value;
use window_snapshot::WindowFlags;

/// Whether all values are texts.
fn are_texts(values: &[Value]) -> bool
    ensures { result ≡ list_all (λ d. is_some (as_str d)) (map view values.now) }
{
    for value in values {
        if !value.is_str() {
            return false;
        }
    }
    true
}

/// The flag with a name.
fn flag_of(name: &str) -> Option<WindowFlags>
    ensures { option_map (λ f. f.bits) result ≡ find_name flag_table name.now }
{
    WindowFlags::from_name(name)
}

/// Some flags and one more.
fn with_flag(flags: WindowFlags, flag: WindowFlags) -> WindowFlags
    ensures { result.bits ≡ bit_or flags.bits flag.bits }
{
    let mut flags = flags;
    flags.insert(flag);
    flags
}

/// No flag.
fn no_flags() -> WindowFlags
    ensures { result.bits ≡ 0 }
{
    WindowFlags::from_bits_retain(0)
}

/// The flags that the values at a key name.
fn flags_of(
    alloc: Global,
    place: Place,
    key: &str,
    values: &[Value],
) -> Result<WindowFlags, PlanError>
    ensures { Gives (λ f. f.bits) result (bits_from (key_of place key.now) 0 (map view values.now)) }
{
    let mut flags = no_flags();
    for value in values {
        let Some(name) = value.as_str() else {
            return Err(PlanError::Wrong {
                key: key_text(alloc, place, key)?,
            });
        };
        let Some(flag) = flag_of(name) else {
            return Err(PlanError::UnknownName {
                key: key_text(alloc, place, key)?,
            });
        };
        flags = with_flag(flags, flag);
    }
    Ok(flags)
}

/// The flags of the array at a key.
#[tactic(auto, unfolding(crate::specs::Flags::bits_of))]
fn flags_in(alloc: Global, place: Place, key: &str, value: &Value) -> Result<WindowFlags, PlanError>
    ensures { Gives (λ f. f.bits) result (bits_of (key_of place key.now) (view value.now)) }
{
    let Some(values) = elements(value) else {
        return Err(PlanError::Wrong {
            key: key_text(alloc, place, key)?,
        });
    };
    if !are_texts(values) {
        return Err(PlanError::Wrong {
            key: key_text(alloc, place, key)?,
        });
    }
    flags_of(alloc, place, key, values)
}

/// The flags of the window of a table; none if it names none.
#[tactic(auto, unfolding(crate::specs::Flags::bits_at))]
fn flags_at(alloc: Global, place: Place, table: &Value) -> Result<WindowFlags, PlanError>
    ensures { Gives (λ f. f.bits) result (bits_at place (view table.now)) }
{
    match table.get("flags") {
        Some(value) => flags_in(alloc, place, "flags", value),
        None => Ok(no_flags()),
    }
}

/// Whether a wall may have these flags: none of those that are for windows that get touches.
fn fits_wall(flags: WindowFlags) -> bool
    ensures { result ≡ fits_wall flags.bits }
{
    flags.bits() & 60 == 0
}

/// The flags of the window of a table, which fit a wall if it is one.
#[tactic(auto, unfolding(crate::specs::Flags::bits_for))]
pub(crate) fn flags(
    alloc: Global,
    place: Place,
    wall: bool,
    table: &Value,
) -> Result<WindowFlags, PlanError>
    ensures { Gives (λ f. f.bits) result (bits_for place wall (view table.now)) }
{
    let flags = flags_at(alloc, place, table)?;
    if wall && !fits_wall(flags) {
        return Err(PlanError::Wrong {
            key: key_text(alloc, place, "flags")?,
        });
    }
    Ok(flags)
}
