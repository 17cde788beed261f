//! When held keys are repeated.
ghost use Rattle.std.specs.Prelude.{◌≡◌, ℕ, map};
ghost use Rattle.toml.specs.View.{view};
ghost use Rattle.session_plan.specs.declared.key.Place.TheVariants.{Document};
ghost use Rattle.session_plan.specs.Gives.{Gives};
ghost use Rattle.session_plan.specs.Keys.{key_of};
ghost use Rattle.session_plan.specs.Reading.{as_list};
ghost use Rattle.session_plan.specs.Repeats.{both, delay_of, delays_at, delays_of, is_repeated_at, repeats_at, waits_in, waits_of};

use crate::error::PlanError;
use crate::key::{Place, key_text};
use crate::reading::{elements, in_range};
use key_repeat::{Delay, Repeats};
use std::alloc::Global;
use toml::Value;

/// Two delays in microseconds, which may be out of range.
#[derive(Clone, Copy)]
pub(crate) struct Waits {
    first: i64,
    next: i64,
}

/// The delays of two values that are integers.
fn both(first: Option<i64>, next: Option<i64>) -> Option<Waits>
    ensures { result ≡ both first next }
{
    let first = first?;
    let next = next?;
    Some(Waits { first, next })
}

/// The delays of two values.
fn waits_of(values: &[Value]) -> Option<Waits>
    ensures { result ≡ waits_of (map view values.now) }
{
    match values {
        [first, next] => both(first.as_integer(), next.as_integer()),
        _ => None,
    }
}

/// The delays that an array has.
fn waits_in(value: &Value) -> Option<Waits>
    ensures { result ≡ waits_in (as_list (view value.now)) }
{
    let values = elements(value)?;
    waits_of(values)
}

/// A delay of the array at a key.
fn delay(alloc: Global, key: &str, us: i64) -> Result<Delay, PlanError>
    ensures { Gives (λ d. d) result (delay_of (key_of Document key.now) us) }
{
    let us = in_range(alloc, Place::Document, key, 1_000, 600_000_000, us)?;
    Ok(Delay::new(us).unwrap())
}

/// The delays that the value at a key says.
#[tactic(auto, unfolding(crate::specs::Repeats::delays_of))]
fn delays_of(alloc: Global, key: &str, value: &Value) -> Result<Repeats, PlanError>
    ensures { Gives (λ r. r) result (delays_of (key_of Document key.now) (view value.now)) }
{
    let Some(waits) = waits_in(value) else {
        return Err(PlanError::Wrong {
            key: key_text(alloc, Place::Document, key)?,
        });
    };
    let first = delay(alloc, key, waits.first)?;
    let next = delay(alloc, key, waits.next)?;
    Ok(Repeats { first, next })
}

/// The delays of a session; Android's if it says none.
#[tactic(auto, unfolding(crate::specs::Repeats::delays_at))]
fn delays(alloc: Global, document: &Value) -> Result<Repeats, PlanError>
    ensures { Gives (λ r. r) result (delays_at (view document.now)) }
{
    match document.get("repeat_us") {
        Some(value) => delays_of(alloc, "repeat_us", value),
        None => Ok(Repeats::android()),
    }
}

/// Whether held keys are repeated.
#[tactic(auto, unfolding(crate::specs::Repeats::is_repeated_at))]
fn is_repeated(alloc: Global, document: &Value) -> Result<bool, PlanError>
    ensures { Gives (λ b. b) result (is_repeated_at (view document.now)) }
{
    let Some(value) = document.get("repeat") else {
        return Ok(true);
    };
    match value.as_bool() {
        Some(repeated) => Ok(repeated),
        None => Err(PlanError::Wrong {
            key: key_text(alloc, Place::Document, "repeat")?,
        }),
    }
}

/// When the held keys of a session are repeated; None if they are not.
#[tactic(auto, unfolding(crate::specs::Repeats::repeats_at))]
pub(crate) fn repeats(alloc: Global, document: &Value) -> Result<Option<Repeats>, PlanError>
    ensures { Gives (λ r. r) result (repeats_at (view document.now)) }
{
    let delays = delays(alloc, document)?;
    let repeated = is_repeated(alloc, document)?;
    if repeated { Ok(Some(delays)) } else { Ok(None) }
}
