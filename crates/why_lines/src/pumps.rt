//! A pump: args are dispatched, or a key is repeated.
ghost use Rattle.std.specs.Prelude.{◌≡◌, ℕ, List, Some, max, slice_get, IfOk};
ghost use Rattle.dispatch_history.specs.Effect.{Effect, past_of};
ghost use Rattle.dispatch_history.specs.History.{clock as clock_of};
ghost use Rattle.dispatch_history.specs.Queue.{inbound};
ghost use Rattle.dispatcher.specs.Dispatching.{IsAfter};
ghost use Rattle.why_text.specs.Lines.{args_words};
ghost use Rattle.why_lines.specs.Growing.{with_lines};
ghost use Rattle.why_lines.specs.Pumping.{pump_words};

use crate::keys::{add_key, add_repeat, add_reset};
use crate::motions::add_motion;
use crate::seen::sight;
use dispatcher::Dispatcher;
use input_types::{Args, Moment};
use std::alloc::AllocError;

/// Adds the causes of args that are dispatched.
fn add_args(
    text: &mut Vec<u8>,
    clock: Moment,
    dispatcher: &Dispatcher,
    args: &Args,
) -> Result<(), AllocError>
    ensures { (es : List Effect) (x : Effect) → IsAfter es dispatcher.now
        → slice_get (inbound (past_of es)) 0 ≡ Some args.now → x.args ≡ Some args.now
        → IfOk result (λ _. text.new.items
        ≡ with_lines clock (args_words dispatcher.now.displays (Some args.now) x es) text.old.items) }
{
    match args {
        Args::Motion(motion) => {
            let seen = sight(dispatcher, motion.device);
            add_motion(text, clock, &seen, motion)
        }
        Args::Key(key) => add_key(text, clock, dispatcher, key),
        Args::Reset(device) => add_reset(text, clock, dispatcher, *device),
    }
}

/// Adds the causes of the next pump. They are known before it is made. The clock is the one after it: the later of the
/// pump's time and the dispatcher's clock.
pub fn add_pump(
    text: &mut Vec<u8>,
    clock: Moment,
    dispatcher: &Dispatcher,
) -> Result<(), AllocError>
    ensures { (es : List Effect) (now : ℕ) → IsAfter es dispatcher.now
        → clock ≡ max now (clock_of (past_of es))
        → IfOk result (λ _. text.new.items
        ≡ with_lines clock (pump_words dispatcher.now.displays now es) text.old.items) }
{
    match dispatcher.first() {
        Some(args) => add_args(text, clock, dispatcher, args),
        None => add_repeat(text, clock, dispatcher),
    }
}
