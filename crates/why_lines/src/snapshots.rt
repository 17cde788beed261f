//! Snapshots of the windows, made and explained.
ghost use Rattle.std.specs.Prelude.{◌≡◌, ◌<◌, ◌+◌, ◌∷◌, List, IfOk};
ghost use Rattle.dispatch_calls.specs.declared.call.Call.TheVariants.{Windows};
ghost use Rattle.dispatch_history.specs.Effect.{Effect};
ghost use Rattle.dispatcher.specs.Dispatching.{IsAfter};
ghost use Rattle.why_text.specs.Lines.{gone_words};
ghost use Rattle.why_text.specs.Lost.{lost_items};
ghost use Rattle.why_lines.specs.Gone.{gone_line};
ghost use Rattle.why_lines.specs.Growing.{with_lines};
ghost use Rattle.why_lines.specs.Held.{HoldThis, IsQuiet, held_keys};
ghost use Rattle.why_lines.specs.Explaining.{ExplainsCall, MakesAsSaid};

use crate::calls::{after_call, take_step};
use crate::error::OutOfMemory;
use crate::focuses::{add_changes, all_focused};
use crate::gone::{add_gone, is_at, keys_gone, target_keys};
use crate::lines::Lost;
use crate::rows::{row_gone, rows_of};
use bits32::Bits32;
use dispatch_calls::Call;
use dispatcher::Dispatcher;
use input_types::{KeyArgs, Moment};
use std::alloc::AllocError;
use window_snapshot::Snapshot;

/// What windows hold before a step: the pointer ids of each window, as a row, and the keys of the window that keys go
/// to.
#[derive(Clone, Copy)]
struct Held<'a> {
    rows: &'a [[Bits32; 8]; 64],
    target: Option<u32>,
    keys: &'a [KeyArgs],
}

/// The keys that a window holds.
fn held_keys<'a>(held: &Held<'a>, window: u32) -> &'a [KeyArgs]
    ensures { result.now ≡ held_keys held.now window }
{
    if is_at(held.target, window) {
        held.keys
    } else {
        &[]
    }
}

/// Adds the line of a window, if it loses something. The window of channel 1 has index 0.
fn add_lost(
    text: &mut Vec<u8>,
    clock: Moment,
    held: &Held,
    dispatcher: &Dispatcher,
    place: usize,
) -> Result<(), AllocError>
    requires { place < 64 }
    ensures { (es : List Effect) (x : Effect) → IsAfter (x ∷ es) dispatcher.now → HoldThis es held.now → IsQuiet x
        → IfOk result (λ _. text.new.items
        ≡ with_lines clock (gone_line (place + 1) (lost_items x es (place + 1))) text.old.items) }
{
    let window = place as u32 + 1;
    let ids = row_gone(&held.rows[place], dispatcher.touches(), window);
    let keys = keys_gone(window, held_keys(held, window), dispatcher.target());
    let lost = Lost { ids: &ids, keys };
    add_gone(text, clock, window, &lost)
}

/// Adds a line for each window that loses something, by rising channel.
fn add_all_lost(
    text: &mut Vec<u8>,
    clock: Moment,
    held: &Held,
    dispatcher: &Dispatcher,
) -> Result<(), AllocError>
    ensures { (es : List Effect) (x : Effect) → IsAfter (x ∷ es) dispatcher.now → HoldThis es held.now → IsQuiet x
        → IfOk result (λ _. text.new.items ≡ with_lines clock (gone_words x es) text.old.items) }
{
    for place in 0..64 {
        add_lost(text, clock, held, dispatcher, place)?;
    }
    Ok(())
}

/// Makes the call that says that the windows are these from now on, and adds its lines: the windows, what each window
/// loses that does not stay, and the changes of the focus.
pub(crate) fn windows(
    lines: &mut Vec<u8>,
    dispatcher: &mut Dispatcher,
    call: &Call,
    now: Moment,
    snapshot: &Snapshot,
) -> Result<(), OutOfMemory>
    requires { call.now ≡ Windows now snapshot.now }
    ensures known { ExplainsCall result (Windows now snapshot.now)
        lines.old.items lines.new.items dispatcher.old dispatcher.new }
    ensures made { MakesAsSaid result (Windows now snapshot.now) dispatcher.old dispatcher.new }
{
    let clock = now.later(dispatcher.clock());
    let before = all_focused(dispatcher);
    let rows = rows_of(dispatcher.touches());
    let target = dispatcher.target();
    let keys = target_keys(*lines.allocator(), dispatcher, target)?;
    let held = Held {
        rows: &rows,
        target,
        keys: &keys,
    };
    crate::lines::windows(lines, clock, snapshot.windows())?;
    take_step(dispatcher, call)?;
    let after = all_focused(dispatcher);
    after_call(add_all_lost(lines, clock, &held, dispatcher))?;
    after_call(add_changes(lines, clock, &before, &after))
}
