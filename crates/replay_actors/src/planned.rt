//! The lanes whose calls are known before they begin: the reader and the scripts.
ghost use Rattle.std.specs.Prelude.{◌≡◌, [], OnOk, reverse};
ghost use Rattle.turnstile.specs.Seats.{view};
ghost use Rattle.input_service.specs.Services.{IsOf};
ghost use Rattle.replay_actors.specs.Lanes.{calls_made, notifies};
ghost use Rattle.replay_actors.specs.Seats.{Stays};
ghost use Rattle.replay_actors.specs.Parts.{calls_of};

use crate::acts::call_of;
use crate::gate::Gate;
use crate::lane::{Lane, Shared};
use dispatch_calls::Call;
use input_types::{Args, Moment};
use session_plan::Step;
use std::alloc::AllocError;
use std::sync::Wait;

/// Hands in args, each at its time.
pub(crate) fn read<'a, R: Wait, G: Gate>(
    shared: &Shared<'a, R, G>,
    lane: &mut Lane,
    cooked: &[(Moment, Args)],
) -> Result<(), AllocError>
    requires of { IsOf shared.now.service.now lane.old.seat }
    requires new { (view lane.old.seat).mine.own ≡ [] }
    ensures of { IsOf shared.now.service.now lane.new.seat }
    ensures stays { Stays (view lane.old.seat) (view lane.new.seat) }
    ensures did { OnOk result (calls_made (view lane.new.seat).mine.own ≡ reverse (notifies cooked.now)) }
{
    'cooked: for entry in cooked {
        let (now, args) = *entry;
        lane.call(shared, Call::Notify { now, args })?;
    }
    Ok(())
}

/// Makes the steps of a script.
pub(crate) fn follow<'a, R: Wait, G: Gate>(
    shared: &Shared<'a, R, G>,
    lane: &mut Lane,
    steps: Vec<Step>,
) -> Result<(), AllocError>
    requires of { IsOf shared.now.service.now lane.old.seat }
    requires new { (view lane.old.seat).mine.own ≡ [] }
    ensures of { IsOf shared.now.service.now lane.new.seat }
    ensures stays { Stays (view lane.old.seat) (view lane.new.seat) }
    ensures did { OnOk result (calls_made (view lane.new.seat).mine.own ≡ reverse (calls_of steps.items)) }
{
    'steps: for step in steps {
        let Step { at, act, .. } = step;
        lane.call(shared, call_of(at, act))?;
    }
    Ok(())
}
