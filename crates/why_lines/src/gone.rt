//! Windows that lose something when the focus or the snapshot changes.
ghost use Rattle.std.specs.Prelude.{◌≡◌, List, IfOk};
ghost use Rattle.focus_resolver.specs.Resolver.{is_at};
ghost use Rattle.dispatch_history.specs.Effect.{Effect};
ghost use Rattle.dispatcher.specs.Dispatching.{IsAfter};
ghost use Rattle.why_lines.specs.Lost.{items_of};
ghost use Rattle.why_lines.specs.Gone.{gone_line, keys_gone, target_keys};
ghost use Rattle.why_lines.specs.Growing.{with_lines};

use crate::lines::{Lost, gone};
use crate::losing::keys_held;
use dispatcher::Dispatcher;
use input_types::{KeyArgs, Moment};
use std::alloc::{AllocError, Global};

/// Adds the line of a window that loses something; adds nothing if it loses nothing.
pub(crate) fn add_gone(
    text: &mut Vec<u8>,
    clock: Moment,
    window: u32,
    lost: &Lost,
) -> Result<(), AllocError>
    ensures { IfOk result (λ _. text.new.items
        ≡ with_lines clock (gone_line window (items_of lost.now.ids.now lost.now.keys.now)) text.old.items) }
{
    if lost.is_nothing() {
        Ok(())
    } else {
        gone(text, clock, window, lost)
    }
}

/// Whether keys go to a window.
pub(crate) fn is_at(target: Option<u32>, window: u32) -> bool
    ensures { result ≡ is_at target window }
{
    match target {
        Some(channel) => window == channel,
        None => false,
    }
}

/// The keys, of those that a window holds, that it loses if keys go to this target from now on.
pub(crate) fn keys_gone(window: u32, held: &[KeyArgs], target: Option<u32>) -> &[KeyArgs]
    ensures { result.now ≡ keys_gone window held.now target }
{
    if is_at(target, window) { &[] } else { held }
}

/// The keys held by the window that keys go to; None if there is no such window.
pub(crate) fn target_keys(
    alloc: Global,
    dispatcher: &Dispatcher,
    target: Option<u32>,
) -> Result<Vec<KeyArgs>, AllocError>
    ensures { (es : List Effect) → IsAfter es dispatcher.now
        → IfOk result (λ v. v.items ≡ target_keys es target) }
{
    match target {
        Some(window) => keys_held(alloc, dispatcher, window),
        None => Ok(Vec::new(alloc)),
    }
}
