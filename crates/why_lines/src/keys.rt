//! Keys that go down or up, or are repeated, and devices that begin anew.
ghost use Rattle.std.specs.Prelude.{◌≡◌, ◌++◌, ◌==◌, ◌&&◌, ◌||◌, ℕ, List, Some, true, false, [], is_some, if◌then◌else◌, IfOk};
ghost use Rattle.std.specs.List.{list_any};
ghost use Rattle.input_types.specs.declared.message.Args.TheVariants.{Key as KeyOfDevice};
ghost use Rattle.window_snapshot.specs.Mask.{is_channel, mask_has};
ghost use Rattle.dispatch_history.specs.Effect.{Effect};
ghost use Rattle.dispatch_history.specs.Keys.{keys};
ghost use Rattle.dispatch_history.specs.KeySent.{last_key, repeat_due};
ghost use Rattle.dispatch_history.specs.Reply.{is_due};
ghost use Rattle.dispatch_history.specs.Step.{scene};
ghost use Rattle.dispatcher.specs.Access.{is_waiting};
ghost use Rattle.dispatcher.specs.Dispatching.{IsAfter};
ghost use Rattle.why_text.specs.Lines.{key_line, repeat_words, reset_words};
ghost use Rattle.why_text.specs.Text.{line};
ghost use Rattle.why_lines.specs.Growing.{with_lines};

use crate::holders::{KeyHolder, given_key, holder_of, key_holder};
use crate::lines::{key_down, key_up, repeat, reset};
use dispatcher::Dispatcher;
use input_types::{DeviceId, KeyArgs, KeyMsg, Moment};
use std::alloc::AllocError;
use window_snapshot::mask_with;

/// Adds the line of a key that goes down or up.
pub(crate) fn add_key(
    text: &mut Vec<u8>,
    clock: Moment,
    dispatcher: &Dispatcher,
    key: &KeyArgs,
) -> Result<(), AllocError>
    ensures { (es : List Effect) (x : Effect) → IsAfter es dispatcher.now
        → x.args ≡ Some (KeyOfDevice key.now)
        → IfOk result (λ _. text.new.items ≡ text.old.items ++ line clock (key_line key.now x es)) }
{
    if key.down {
        let target = dispatcher.target();
        let given = given_key(dispatcher);
        key_down(text, clock, key, target, given)
    } else {
        let from = holder_of(dispatcher, key);
        key_up(text, clock, key, from)
    }
}

/// Whether a key of a device is among these.
fn has_key_of(keys: &[KeyMsg], device: DeviceId) -> bool
    ensures { result ≡ list_any (λ m. m.key.device == device) keys.now }
{
    keys.iter().any(|message| message.key.device == device)
}

/// The mask, plus the window that holds keys if one of them belongs to a device.
fn with_keys(mask: u64, holder: &KeyHolder, device: DeviceId) -> u64
    ensures { (w : ℕ) → is_channel w ≡ true → mask_has result w
        ≡ (mask_has mask w
        || (w == holder.now.window && list_any (λ m. m.key.device == device) holder.now.keys.now)) }
{
    if has_key_of(holder.keys, device) {
        mask_with(mask, holder.window)
    } else {
        mask
    }
}

/// The mask of the windows that hold a pointer or a key of a device.
fn held_of(dispatcher: &Dispatcher, device: DeviceId) -> u64
    ensures { (es : List Effect) → IsAfter es dispatcher.now → (w : ℕ) → is_channel w ≡ true
        → mask_has result w
        ≡ ((scene dispatcher.now.displays es).any w device || list_any (λ k. k.device == device) (keys es w)) }
{
    let mask = dispatcher.touches().holders(device);
    match key_holder(dispatcher) {
        Some(holder) => with_keys(mask, &holder, device),
        None => mask,
    }
}

/// Adds the line of a device that begins anew.
pub(crate) fn add_reset(
    text: &mut Vec<u8>,
    clock: Moment,
    dispatcher: &Dispatcher,
    device: DeviceId,
) -> Result<(), AllocError>
    ensures { (es : List Effect) → IsAfter es dispatcher.now
        → IfOk result (λ _. text.new.items
        ≡ text.old.items ++ line clock (reset_words device (scene dispatcher.now.displays es) es)) }
{
    let held = held_of(dispatcher, device);
    reset(text, clock, device, held)
}

/// Adds the line of a repeat that is due.
fn add_due(text: &mut Vec<u8>, clock: Moment, dispatcher: &Dispatcher) -> Result<(), AllocError>
    ensures { (es : List Effect) → IsAfter es dispatcher.now → is_some (repeat_due es) ≡ true
        → IfOk result (λ _. text.new.items ≡ with_lines clock (repeat_words (last_key es)) text.old.items) }
{
    let next = dispatcher.repeat();
    match next {
        Some(next) => repeat(text, clock, &next.1, next.0),
        None => Ok(()),
    }
}

/// Whether something is due at a time.
pub(crate) fn is_due(due: Option<u64>, now: Moment) -> bool
    ensures { result ≡ is_due due now }
{
    match due {
        Some(at) => at <= now.get(),
        None => false,
    }
}

/// Adds the line of a repeat, if one is due and no args wait.
pub(crate) fn add_repeat(
    text: &mut Vec<u8>,
    clock: Moment,
    dispatcher: &Dispatcher,
) -> Result<(), AllocError>
    ensures { (es : List Effect) → IsAfter es dispatcher.now → is_waiting es ≡ false
        → IfOk result (λ _. text.new.items
        ≡ with_lines clock (if is_due (repeat_due es) clock then repeat_words (last_key es) else [])
        text.old.items) }
{
    if is_due(dispatcher.repeat_due(), clock) {
        add_due(text, clock, dispatcher)
    } else {
        Ok(())
    }
}
