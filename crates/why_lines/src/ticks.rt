//! A tick reports windows that did not respond in time. They lose everything that they hold.
ghost use Rattle.std.specs.Prelude.{◌≡◌, ◌++◌, ℕ, List, [], ◌∷◌, true, decimal, map, if◌then◌else◌, IfOk};
ghost use Rattle.window_snapshot.specs.Mask.{is_channel};
ghost use Rattle.dispatch_history.specs.Effect.{Effect};
ghost use Rattle.dispatch_history.specs.Reply.{is_due};
ghost use Rattle.dispatcher.specs.DispatchTables.Dues.{due_moment};
ghost use Rattle.dispatcher.specs.Dispatching.{IsAfter};
ghost use Rattle.why_text.specs.Lines.{timeout_word, timeout_words};
ghost use Rattle.why_text.specs.Lost.{lost_word};
ghost use Rattle.why_text.specs.Text.{line};
ghost use Rattle.why_text.specs.Words.{channels_that};
ghost use Rattle.why_lines.specs.Growing.{with_lines};
ghost use Rattle.why_lines.specs.Losing.{LosesAll};

use crate::keys::is_due;
use crate::lines::{Lost, timeout};
use crate::losing::{ids_of, keys_held};
use dispatcher::Dispatcher;
use input_types::Moment;
use std::alloc::AllocError;

/// Adds the line of a window that is reported, with the number of a message. The window loses everything that it holds.
fn add_timeout(
    text: &mut Vec<u8>,
    clock: Moment,
    dispatcher: &Dispatcher,
    channel: u32,
    seq: u64,
) -> Result<(), AllocError>
    requires { is_channel channel ≡ true }
    ensures { (es : List Effect) (x : Effect) → IsAfter es dispatcher.now → LosesAll x es channel
        → IfOk result (λ _. text.new.items
        ≡ text.old.items ++ line clock (timeout_word channel (decimal seq) (lost_word x es channel))) }
{
    let ids = ids_of(dispatcher, channel);
    let keys = keys_held(*text.allocator(), dispatcher, channel)?;
    let lost = Lost {
        ids: &ids,
        keys: &keys,
    };
    timeout(text, clock, channel, seq, &lost)
}

/// Adds the line of a window, if its channel is due to be reported.
fn add_late(
    text: &mut Vec<u8>,
    clock: Moment,
    dispatcher: &Dispatcher,
    channel: u32,
) -> Result<(), AllocError>
    requires { is_channel channel ≡ true }
    ensures { (es : List Effect) (x : Effect) → IsAfter es dispatcher.now
        → (is_due (due_moment es channel) clock ≡ true → LosesAll x es channel)
        → IfOk result (λ _. text.new.items
        ≡ with_lines clock
        (map (timeout_words x es) (if is_due (due_moment es channel) clock then channel ∷ [] else []))
        text.old.items) }
{
    if !is_due(dispatcher.due(channel), clock) {
        return Ok(());
    }
    match dispatcher.oldest(channel) {
        Some(oldest) => add_timeout(text, clock, dispatcher, channel, oldest.0),
        None => Ok(()),
    }
}

/// Adds the lines of a tick: one for each channel that is due to be reported. They are known before the tick is made.
pub(crate) fn add_tick(
    text: &mut Vec<u8>,
    clock: Moment,
    dispatcher: &Dispatcher,
) -> Result<(), AllocError>
    ensures { (es : List Effect) (x : Effect) → IsAfter es dispatcher.now
        → ((w : ℕ) → is_due (due_moment es w) clock ≡ true → LosesAll x es w)
        → IfOk result (λ _. text.new.items
        ≡ with_lines clock
        (map (timeout_words x es) (channels_that (λ w. is_due (due_moment es w) clock)))
        text.old.items) }
{
    for place in 0..64 {
        add_late(text, clock, dispatcher, place + 1)?;
    }
    Ok(())
}
