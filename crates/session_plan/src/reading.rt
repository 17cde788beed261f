//! How values are read at the keys of a table.
ghost use Rattle.std.specs.Prelude.{◌≡◌, ℤ, ◌≤◌, ◌≤ℤ◌, pos, map, length, option_map, IfOk, []};
ghost use Rattle.std.specs.List.{list_all};
ghost use Rattle.toml.specs.Data.{get};
ghost use Rattle.toml.specs.View.{view};
ghost use Rattle.session_plan.specs.Gives.{Gives};
ghost use Rattle.session_plan.specs.Keys.{key_of};
ghost use Rattle.session_plan.specs.Reading.{as_list, at_most, coordinate, in_range, is_table, number, number_at, number_or, required, tables, tables_at, text_at};

use crate::error::PlanError;
use crate::key::{Place, key_text};
use std::alloc::Global;
use toml::Value;

/// The value at a key that has to be there.
pub(crate) fn required<'a>(
    alloc: Global,
    place: Place,
    key: &str,
    table: &'a Value,
) -> Result<&'a Value, PlanError>
    ensures { Gives (λ v. view v.now) result (required (key_of place key.now) (get key.now (view table.now))) }
{
    match table.get(key) {
        Some(value) => Ok(value),
        None => Err(PlanError::Missing {
            key: key_text(alloc, place, key)?,
        }),
    }
}

/// A number from low to high.
pub(crate) fn in_range(
    alloc: Global,
    place: Place,
    key: &str,
    low: i64,
    high: i64,
    z: i64,
) -> Result<u64, PlanError>
    requires { pos 0 ≤ℤ low }
    ensures value { Gives (λ n. n) result (in_range (key_of place key.now) low high z) }
    ensures range { IfOk result (λ n. (low ≤ℤ pos n) × (pos n ≤ℤ high)) }
{
    if low <= z && z <= high {
        Ok(z as u64)
    } else {
        Err(PlanError::OutOfRange {
            key: key_text(alloc, place, key)?,
            value: z,
        })
    }
}

/// An integer from low to high.
#[tactic(auto, unfolding(crate::specs::Reading::number))]
fn number(
    alloc: Global,
    place: Place,
    key: &str,
    low: i64,
    high: i64,
    value: &Value,
) -> Result<u64, PlanError>
    requires { pos 0 ≤ℤ low }
    ensures value { Gives (λ n. n) result (number (key_of place key.now) low high (view value.now)) }
    ensures range { IfOk result (λ n. (low ≤ℤ pos n) × (pos n ≤ℤ high)) }
{
    let Some(z) = value.as_integer() else {
        return Err(PlanError::Wrong {
            key: key_text(alloc, place, key)?,
        });
    };
    in_range(alloc, place, key, low, high, z)
}

/// The integer at a key, which has to be there.
#[tactic(auto, unfolding(crate::specs::Reading::number_at))]
pub(crate) fn number_at(
    alloc: Global,
    place: Place,
    key: &str,
    low: i64,
    high: i64,
    table: &Value,
) -> Result<u64, PlanError>
    requires { pos 0 ≤ℤ low }
    ensures value { Gives (λ n. n) result (number_at place key.now low high (view table.now)) }
    ensures range { IfOk result (λ n. (low ≤ℤ pos n) × (pos n ≤ℤ high)) }
{
    let value = required(alloc, place, key, table)?;
    number(alloc, place, key, low, high, value)
}

/// The integer at a key, or a default where nothing stands there.
#[tactic(auto, unfolding(crate::specs::Reading::number_or))]
pub(crate) fn number_or(
    alloc: Global,
    default: u64,
    place: Place,
    key: &str,
    low: i64,
    high: i64,
    table: &Value,
) -> Result<u64, PlanError>
    requires low { pos 0 ≤ℤ low }
    requires above { low ≤ℤ pos default }
    requires below { pos default ≤ℤ high }
    ensures value { Gives (λ n. n) result (number_or default place key.now low high (view table.now)) }
    ensures range { IfOk result (λ n. (low ≤ℤ pos n) × (pos n ≤ℤ high)) }
{
    match table.get(key) {
        Some(value) => number(alloc, place, key, low, high, value),
        None => Ok(default),
    }
}

/// The text at a key, which has to be there.
#[tactic(auto, unfolding(crate::specs::Reading::text_at))]
pub(crate) fn text_at<'a>(
    alloc: Global,
    place: Place,
    key: &str,
    table: &'a Value,
) -> Result<&'a str, PlanError>
    ensures { Gives (λ text. text.now) result (text_at place key.now (view table.now)) }
{
    let value = required(alloc, place, key, table)?;
    match value.as_str() {
        Some(text) => Ok(text),
        None => Err(PlanError::Wrong {
            key: key_text(alloc, place, key)?,
        }),
    }
}

/// A number of 32 bits with a sign.
pub(crate) fn coordinate(alloc: Global, place: Place, key: &str, z: i64) -> Result<i32, PlanError>
    ensures value { Gives (λ n. n) result (coordinate (key_of place key.now) z) }
    ensures same { IfOk result (λ n. n ≡ z) }
{
    if -2147483648 <= z && z <= 2147483647 {
        Ok(z as i32)
    } else {
        Err(PlanError::OutOfRange {
            key: key_text(alloc, place, key)?,
            value: z,
        })
    }
}

/// The elements of an array.
#[tactic(auto, using(crate::proofs::Elements::list_of_items))]
pub(crate) fn elements(value: &Value) -> Option<&[Value]>
    ensures { option_map (λ v. map view v.now) result ≡ as_list (view value.now) }
{
    match value.as_array() {
        Some(array) => Some(array.as_slice()),
        None => None,
    }
}

/// Whether all values are tables.
fn are_tables(values: &[Value]) -> bool
    ensures { result ≡ list_all is_table (map view values.now) }
{
    for value in values {
        if !value.is_table() {
            return false;
        }
    }
    true
}

/// The tables of an array of tables.
#[tactic(auto, unfolding(crate::specs::Reading::tables))]
pub(crate) fn tables<'a>(
    alloc: Global,
    place: Place,
    key: &str,
    value: &'a Value,
) -> Result<&'a [Value], PlanError>
    ensures { Gives (λ v. map view v.now) result (tables (key_of place key.now) (view value.now)) }
{
    match elements(value) {
        Some(values) => {
            if are_tables(values) {
                Ok(values)
            } else {
                Err(PlanError::Wrong {
                    key: key_text(alloc, place, key)?,
                })
            }
        }
        None => Err(PlanError::Wrong {
            key: key_text(alloc, place, key)?,
        }),
    }
}

/// The tables of the array of tables at a key, none where nothing stands there.
#[tactic(auto, unfolding(crate::specs::Reading::tables_at))]
pub(crate) fn tables_at<'a>(
    alloc: Global,
    place: Place,
    key: &str,
    table: &'a Value,
) -> Result<&'a [Value], PlanError>
    ensures { Gives (λ v. map view v.now) result (tables_at place key.now (view table.now)) }
{
    match table.get(key) {
        Some(value) => tables(alloc, place, key, value),
        None => Ok(&[]),
    }
}

/// Checks that there are at most this many entries.
pub(crate) fn at_most(
    alloc: Global,
    place: Place,
    key: &str,
    most: usize,
    values: &[Value],
) -> Result<(), PlanError>
    ensures value { Gives (λ _. tt) result (at_most (key_of place key.now) most (map view values.now)) }
    ensures few { IfOk result (λ _. length values.now ≤ most) }
{
    if values.len() <= most {
        Ok(())
    } else {
        Err(PlanError::OutOfRange {
            key: key_text(alloc, place, key)?,
            value: values.len() as i64,
        })
    }
}
