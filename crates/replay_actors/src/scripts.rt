//! The steps of a session dealt to its script lanes. Each lane makes its own steps in their order. Of four steps of the
//! lanes 1, 3, 1 and 8, lane 1 has the first and the third, lane 3 the second, lane 8 the fourth, and the other five
//! lanes have none.
ghost use Rattle.std.specs.Prelude.{◌≡◌, ◌++◌, ◌<◌, ℕ, [], OnOk, IfOk, map, vec_len};
ghost use Rattle.replay_actors.specs.Orders.{AreLanes};
ghost use Rattle.replay_actors.specs.Session.{step_of};
ghost use Rattle.replay_actors.specs.Plans.{scripted};
ghost use Rattle.replay_actors.specs.Scripts.{calls_at, call_for};

use session_plan::Step;
use std::alloc::{AllocError, Global};

/// How many script lanes a session may have.
const LANES: usize = 8;

/// As many script lanes without steps.
fn no_steps(alloc: Global) -> Result<Vec<Vec<Step>>, AllocError>
    ensures len { IfOk result (λ v. vec_len v ≡ 8) }
    ensures none { IfOk result (λ v. (k : ℕ) → calls_at v.items k ≡ []) }
{
    let mut scripts = Vec::new(alloc);
    for _ in 0..LANES {
        scripts.push(Vec::new(alloc))?;
    }
    Ok(scripts)
}

/// Appends a step to those of its lane. There is no lane 0, and none above the last one.
fn deal(scripts: &mut Vec<Vec<Step>>, step: Step) -> Result<(), AllocError>
    ensures len { vec_len scripts.new ≡ vec_len scripts.old }
    ensures dealt { OnOk result ((k : ℕ) → k < vec_len scripts.old
        → calls_at scripts.new.items k ≡ calls_at scripts.old.items k ++ call_for step k) }
{
    let place = usize::from(step.lane);
    if 1 <= place && place <= scripts.len() {
        scripts[place - 1].push(step)?;
    }
    Ok(())
}

/// The steps of the script lanes 1 to 8, each in the order of the session. Without memory all are dropped.
pub fn scripts_of(alloc: Global, steps: Vec<Step>) -> Result<Vec<Vec<Step>>, AllocError>
    ensures few { IfOk result (λ v. vec_len v ≡ 8) }
    ensures lanes { IfOk result (λ v. AreLanes 1 (scripted v.items) (map step_of steps.items)) }
{
    let mut scripts = no_steps(alloc)?;
    for step in steps {
        deal(&mut scripts, step)?;
    }
    Ok(scripts)
}
