//! What a window says of touches that come through it.
ghost use Rattle.std.specs.Prelude.{◌≡◌, ◌≤◌};
ghost use Rattle.toml.specs.View.{view};
ghost use Rattle.session_plan.specs.Gives.{Gives};
ghost use Rattle.session_plan.specs.Keys.{key_of};
ghost use Rattle.session_plan.specs.Trust.{occlusion_at, occlusion_named, occlusion_of};

use crate::error::PlanError;
use crate::key::{Place, key_text};
use std::alloc::Global;
use toml::Value;
use window_snapshot::{Occlusion, Percent};

/// The occlusion with a name.
fn occlusion_named(name: &str) -> Option<Occlusion>
    ensures { result ≡ occlusion_named name.now }
{
    if name == "block" {
        Some(Occlusion::Block)
    } else if name == "opacity" {
        Some(Occlusion::Opacity)
    } else if name == "allow" {
        Some(Occlusion::Allow)
    } else {
        None
    }
}

/// The occlusion that the value at a key names.
fn occlusion_in(
    alloc: Global,
    place: Place,
    key: &str,
    value: &Value,
) -> Result<Occlusion, PlanError>
    ensures { Gives (λ o. o) result (occlusion_of (key_of place key.now) (view value.now)) }
{
    let Some(name) = value.as_str() else {
        return Err(PlanError::Wrong {
            key: key_text(alloc, place, key)?,
        });
    };
    match occlusion_named(name) {
        Some(occlusion) => Ok(occlusion),
        None => Err(PlanError::Wrong {
            key: key_text(alloc, place, key)?,
        }),
    }
}

/// The occlusion of the window of a table; `block` if it names none.
#[tactic(auto, unfolding(crate::specs::Trust::occlusion_at))]
pub(crate) fn occlusion(alloc: Global, place: Place, table: &Value) -> Result<Occlusion, PlanError>
    ensures { Gives (λ o. o) result (occlusion_at place (view table.now)) }
{
    match table.get("occlusion") {
        Some(value) => occlusion_in(alloc, place, "occlusion", value),
        None => Ok(Occlusion::Block),
    }
}

/// A number of per cent.
pub(crate) fn percent(n: u64) -> Percent
    requires { n ≤ 100 }
    ensures { result ≡ n }
{
    match Percent::new(n as u8) {
        Some(percent) => percent,
        None => unreachable!(),
    }
}
