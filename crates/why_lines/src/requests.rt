//! Requests of the focus, made and explained.
ghost use Rattle.std.specs.Prelude.{◌≡◌, IfOk};
ghost use Rattle.dispatch_calls.specs.declared.call.Call.TheVariants.{FocusOn};
ghost use Rattle.why_lines.specs.Gone.{target_line};
ghost use Rattle.why_lines.specs.Growing.{with_lines};
ghost use Rattle.why_lines.specs.Explaining.{ExplainsCall, MakesAsSaid};

use crate::calls::{after_call, take_step};
use crate::error::OutOfMemory;
use crate::focuses::{add_changes, all_focused};
use crate::gone::{add_gone, keys_gone, target_keys};
use crate::lines::{Lost, request};
use dispatch_calls::Call;
use dispatcher::Dispatcher;
use input_types::{DisplayId, KeyArgs, Moment};
use std::alloc::AllocError;

/// Adds the line of the window that keys went to, if it loses its keys to another target.
fn add_target(
    text: &mut Vec<u8>,
    clock: Moment,
    before: Option<u32>,
    held: &[KeyArgs],
    after: Option<u32>,
) -> Result<(), AllocError>
    ensures { IfOk result (λ _. text.new.items
        ≡ with_lines clock (target_line before held.now after) text.old.items) }
{
    match before {
        Some(window) => {
            let keys = keys_gone(window, held, after);
            let lost = Lost { ids: &[], keys };
            add_gone(text, clock, window, &lost)
        }
        None => Ok(()),
    }
}

/// Requests the focus of a display for a channel, or for none, and adds the lines: the request, the keys that the
/// window loses which keys went to, and the changes of the focus.
pub(crate) fn focus_on(
    lines: &mut Vec<u8>,
    dispatcher: &mut Dispatcher,
    now: Moment,
    display: DisplayId,
    channel: Option<u32>,
    keys: bool,
) -> Result<(), OutOfMemory>
    ensures known { ExplainsCall result (FocusOn now display channel keys)
        lines.old.items lines.new.items dispatcher.old dispatcher.new }
    ensures made { MakesAsSaid result (FocusOn now display channel keys) dispatcher.old dispatcher.new }
{
    let clock = now.later(dispatcher.clock());
    let before = all_focused(dispatcher);
    let target = dispatcher.target();
    let held = target_keys(*lines.allocator(), dispatcher, target)?;
    request(lines, clock, display, channel)?;
    take_step(
        dispatcher,
        &Call::FocusOn {
            now,
            display,
            channel,
            keys,
        },
    )?;
    let after = all_focused(dispatcher);
    after_call(add_target(lines, clock, target, &held, dispatcher.target()))?;
    after_call(add_changes(lines, clock, &before, &after))
}
