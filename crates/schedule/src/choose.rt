//! What is done next.
ghost use Rattle.std.specs.Prelude.{IsSome, IfSome, Some, ◌≡◌, ◌≤◌, ◌<◌, ◌-◌, true, List, None, option_map, length, map, slice_get};
ghost use Rattle.std.specs.List.{All};
ghost use Rattle.dispatch_calls.specs.declared.call.Call.TheVariants.{Finish};
ghost use Rattle.dispatch_history.specs.Effect.{Effect, past_of};
ghost use Rattle.dispatch_history.specs.Due.{first_due};
ghost use Rattle.dispatch_history.specs.History.{clock, live};
ghost use Rattle.dispatch_history.specs.Ordered.{soonest};
ghost use Rattle.dispatch_history.specs.Plan.{Plan as PlanView};
ghost use Rattle.dispatcher.specs.Access.{next_repeat};
ghost use Rattle.dispatcher.specs.Dispatching.{IsAfter};
ghost use Rattle.schedule.specs.Choosing.{NoneOverdue, first_step, dues_of, is_before, is_due_by};
ghost use Rattle.schedule.specs.Choosing.{next_finishes, tick_of, repeat_at};
ghost use Rattle.schedule.specs.DueView.{candidate_of};
ghost use Rattle.schedule.specs.Handing.{single};
ghost use Rattle.schedule.specs.Next.{finish_of, next_finish, sooner_with};
ghost use Rattle.schedule.specs.Planned.{IsChannel, channel_of};
ghost use Rattle.schedule.specs.State.{Caught};

use crate::due::{AtOnce, Due, What, sooner};
use crate::plan::{Channel, Step};
use dispatcher::Dispatcher;
use input_types::Moment;
use window_snapshot::{mask_first, mask_without};

/// Whether a time is before what is due, if anything is due.
pub(crate) fn is_before(at: Moment, due: Option<Due>) -> bool
    ensures { result ≡ is_before at (option_map candidate_of due) }
{
    match due {
        None => true,
        Some(due) => at.get() < due.moment,
    }
}

/// The next finish of a live channel.
fn next_finish(dispatcher: &Dispatcher, number: u32, channel: &Channel) -> Option<Due>
    requires { IsChannel channel.now }
    ensures { (es : List Effect) → IsAfter es dispatcher.now → live (past_of es) number ≡ true
        → option_map candidate_of result ≡ next_finish es number (channel_of channel.now) }
{
    if !channel.finishes {
        return None;
    }
    let (seq, delivery) = dispatcher.oldest(number)?;
    Some(Due {
        moment: delivery.get() + channel.finish_after,
        what: What::Finish {
            channel: number,
            seq,
        },
    })
}

/// The next finish of a live channel among these, and whether its owner finishes at once: such a finish is due by the
/// clock.
fn finish_among(dispatcher: &Dispatcher, number: u32, channels: &[Channel]) -> (Option<Due>, bool)
    requires channels { All IsChannel channels.now }
    requires number { 1 ≤ number }
    ensures finish { (es : List Effect) → IsAfter es dispatcher.now → live (past_of es) number ≡ true
        → option_map candidate_of result.0 ≡ finish_of es number (slice_get channels.now (number - 1)) }
    ensures at_once { (es : List Effect) → IsAfter es dispatcher.now → live (past_of es) number ≡ true
        → result.1 ≡ true → is_due_by (option_map candidate_of result.0) (clock (past_of es)) ≡ true }
{
    match channels.get(number as usize - 1) {
        Some(channel) => {
            let finish = next_finish(dispatcher, number, channel);
            (finish, finish.is_some() && channel.finish_after == 0)
        }
        None => (None, false),
    }
}

/// The next finish of all channels, if none is due before the clock. It looks only at channels that may have one, up to
/// the first whose owner finishes at once: nothing is due sooner.
fn next_finish_of_all(dispatcher: &Dispatcher, channels: &[Channel]) -> Option<Due>
    requires { All IsChannel channels.now }
    ensures { (es : List Effect) → IsAfter es dispatcher.now → NoneOverdue (map channel_of channels.now) es
        → option_map candidate_of result ≡ next_finishes es 1 (map channel_of channels.now) None }
{
    let mut best = None;
    let mut rest = dispatcher.unfinished();
    while rest != 0 {
        let number = mask_first(rest);
        let (finish, at_once) = finish_among(dispatcher, number, channels);
        best = sooner(best, finish);
        rest = mask_without(rest, number);
        if at_once {
            return best;
        }
    }
    best
}

/// The next finish of all channels, if none is due before the clock and the owner of the first channel that may have
/// one finishes at once: nothing is due sooner.
#[inline(always)]
pub(crate) fn next_at_once(dispatcher: &Dispatcher, channels: &[Channel]) -> Option<AtOnce>
    ensures { (es : List Effect) → IsAfter es dispatcher.now → NoneOverdue (map channel_of channels.now) es
        → IfSome result (λ found. next_finishes es 1 (map channel_of channels.now) None
        ≡ Some (single (Finish found.moment found.channel found.seq))) }
{
    let rest = dispatcher.unfinished();
    if rest == 0 {
        return None;
    }
    let number = mask_first(rest);
    let channel = channels.get(number as usize - 1)?;
    if !channel.finishes || channel.finish_after != 0 {
        return None;
    }
    let (seq, delivery) = dispatcher.oldest(number)?;
    Some(AtOnce {
        channel: number,
        seq,
        moment: delivery,
    })
}

/// The next tick.
fn next_tick(dispatcher: &Dispatcher) -> Option<Due>
    ensures { (es : List Effect) → IsAfter es dispatcher.now
        → option_map candidate_of result ≡ option_map tick_of (first_due es) }
{
    let (moment, _) = dispatcher.first_due()?;
    Some(Due {
        moment,
        what: What::Tick,
    })
}

/// Whether something is due at or before a time.
fn is_due_by(due: Option<Due>, at: u64) -> bool
    ensures { result ≡ is_due_by (option_map candidate_of due) at }
{
    match due {
        None => false,
        Some(due) => due.moment <= at,
    }
}

/// The sooner of the next finish and the next tick. It seldom searches for the channel that is due to be reported,
/// since a finish usually comes long before.
fn finish_or_tick(dispatcher: &Dispatcher, finish: Option<Due>) -> Option<Due>
    ensures { (es : List Effect) → IsAfter es dispatcher.now
        → option_map candidate_of result
        ≡ sooner_with (option_map candidate_of finish) (option_map tick_of (first_due es)) }
{
    if is_due_by(finish, dispatcher.due_from()) {
        return finish;
    }
    sooner(finish, next_tick(dispatcher))
}

/// The next repeat.
fn next_repeat(dispatcher: &Dispatcher) -> Option<Due>
    ensures { (es : List Effect) → IsAfter es dispatcher.now
        → option_map candidate_of result ≡ option_map repeat_at (next_repeat es) }
{
    let moment = dispatcher.repeat_due()?;
    Some(Due {
        moment,
        what: What::Repeat,
    })
}

/// What is due next, apart from steps and args.
pub(crate) fn next_due(dispatcher: &Dispatcher, channels: &[Channel]) -> Option<Due>
    requires { All IsChannel channels.now }
    ensures { (plan : PlanView) (es : List Effect) → IsAfter es dispatcher.now
        → dispatcher.now.displays ≡ plan.displays → Caught es → plan.channels ≡ map channel_of channels.now
        → NoneOverdue plan.channels es
        → option_map candidate_of result ≡ soonest (dues_of plan es) }
{
    let finish = next_finish_of_all(dispatcher, channels);
    let first = finish_or_tick(dispatcher, finish);
    sooner(first, next_repeat(dispatcher))
}

/// The next of some steps, if it comes before what is due.
pub(crate) fn first_step(steps: &[Step], next: usize, due: Option<Due>) -> Option<&Step>
    ensures value { option_map (λ s. s.now) result ≡ first_step steps.now next (option_map candidate_of due) }
    ensures within { IsSome result → next < length steps.now }
{
    let step = steps.get(next)?;
    if is_before(step.call.moment(), due) {
        Some(step)
    } else {
        None
    }
}
