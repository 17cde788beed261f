//! How the bytes of a session file say a plan.
ghost use Rattle.std.specs.Prelude.{IfOk};
ghost use Rattle.toml.specs.View.{view};
ghost use Rattle.session_plan.specs.Gives.{Gives};
ghost use Rattle.session_plan.specs.Reading.{document_of, parsed};
ghost use Rattle.session_plan.specs.Session.{plan_of, session_of};
ghost use Rattle.session_plan.specs.Valid.{IsPlan};
ghost use Rattle.session_plan.specs.View.{plan_view};

use crate::channel::channels;
use crate::device::devices;
use crate::display::displays;
use crate::error::PlanError;
use crate::key::Place;
use crate::plan::Plan;
use crate::reading::number_or;
use crate::repeat::repeats;
use crate::step::{MAX_US, steps};
use input_types::Moment;
use std::alloc::Global;
use std::str;
use toml::Value;

/// The table that the bytes are.
#[tactic(auto, using(crate::proofs::Text::parsed_text, crate::proofs::Text::parsed_no_text))]
fn document(alloc: Global, bytes: &[u8]) -> Result<Value, PlanError>
    ensures { Gives view result (document_of (parsed bytes.now)) }
{
    let Ok(text) = str::from_utf8(bytes) else {
        return Err(PlanError::NotToml);
    };
    match toml::table_from_str(alloc, text) {
        Ok(table) => Ok(Value::Table(table)),
        Err(error) => {
            if error.is_memory() {
                Err(PlanError::Memory)
            } else {
                Err(PlanError::NotToml)
            }
        }
    }
}

/// The plan of a document.
#[tactic(auto, unfolding(crate::specs::Session::plan_of))]
fn plan(alloc: Global, document: &Value) -> Result<Plan, PlanError>
    ensures value { Gives plan_view result (plan_of (view document.now)) }
    ensures valid { IfOk result IsPlan }
{
    let displays = displays(alloc, document)?;
    let end = number_or(alloc, 0, Place::Document, "end_us", 0, MAX_US, document)?;
    let repeats = repeats(alloc, document)?;
    let devices = devices(alloc, displays.len(), document)?;
    let channels = channels(alloc, document)?;
    let steps = steps(alloc, &channels, devices.len(), displays.len(), document)?;
    Ok(Plan {
        displays,
        devices,
        channels,
        steps,
        end: Moment::new(end).unwrap(),
        repeats,
    })
}

impl Plan {
    /// The plan that the bytes of a session file give, or the first refusal in the order in which keys are read.
    ///
    /// The bytes are one TOML table. Unknown keys are skipped, and so are keys that another kind of device or step has.
    /// Memory may run out at any time; every other answer follows from the bytes.
    #[tactic(auto, unfolding(crate::specs::Session::session_of))]
    pub fn read(alloc: Global, bytes: &[u8]) -> Result<Plan, PlanError>
        ensures value { Gives plan_view result (session_of bytes.now) }
        ensures valid { IfOk result IsPlan }
    {
        let document = document(alloc, bytes)?;
        plan(alloc, &document)
    }
}
