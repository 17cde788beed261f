//! Which step of a lane comes next.
ghost use Rattle.std.specs.Prelude.{◌≡◌, List, IfOk, IfSome, option_map, replicate, map};
ghost use Rattle.std.specs.List.{All};
ghost use Rattle.dispatch_history.specs.Given.{next_of_lane, without_next};
ghost use Rattle.dispatch_history.specs.Plan.{ScriptStep};
ghost use Rattle.given_run.specs.Lanes.{Finds, IsLeft};
ghost use Rattle.schedule.specs.Planned.{IsStep, step_of};

use schedule::Step;
use std::alloc::{AllocError, Global};
use std::marker::Model;

/// How many lanes a byte can name.
const LANES: usize = 256;

/// For each lane, the index from which the search for its next step begins.
#[derive(Drop)]
pub(crate) struct Lanes {
    places: Vec<usize>,
}

impl Model for Lanes {
    ghost use Rattle.std.specs.Prelude.{◌≡◌, List, ℕ, length};

    ghost Value = { List ℕ };

    ghost view = { λ l. l.places.items };

    ghost invariant = { λ l. length l.places.items ≡ 256 };
}

/// A list of this many zeros.
fn zeros(alloc: Global, count: usize) -> Result<Vec<usize>, AllocError>
    ensures { IfOk result (λ v. v.items ≡ replicate count 0) }
{
    vec![in alloc; 0; count]
}

/// The index of the next step of a lane, searched from an index on.
fn next_place(steps: &[Step], lane: u8, from: usize) -> Option<usize>
    ensures { Finds steps.now lane from result }
{
    let mut at = from;
    'steps: while at < steps.len() {
        if steps[at].lane == lane {
            return Some(at);
        }
        at += 1;
    }
    None
}

impl Lanes {
    /// The lanes before any step is made.
    pub(crate) fn new(alloc: Global) -> Result<Lanes, AllocError>
        ensures { (steps : List ScriptStep) → IfOk result (IsLeft steps steps) }
    {
        let places = zeros(alloc, LANES)?;
        Ok(Lanes { places })
    }

    /// Takes the next step of a lane; None if none is left.
    pub(crate) fn next<'a>(&mut self, steps: &'a [Step], lane: u8) -> Option<&'a Step>
        ensures step { (left : List ScriptStep) → IsLeft (map step_of steps.now) left self.old
            → option_map (λ s. s.now.call) result ≡ next_of_lane lane left }
        ensures left { (left : List ScriptStep) → IsLeft (map step_of steps.now) left self.old
            → IfSome result (λ _. IsLeft (map step_of steps.now) (without_next lane left) self.new) }
        ensures scripted { All IsStep steps.now → IfSome result (λ s. IsStep s.now) }
    {
        let from = self.places[usize::from(lane)];
        let Some(at) = next_place(steps, lane, from) else {
            return None;
        };
        self.places[usize::from(lane)] = at + 1;
        Some(&steps[at])
    }
}
