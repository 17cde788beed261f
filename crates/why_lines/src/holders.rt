//! The window that holds keys.
ghost use Rattle.std.specs.Prelude.{◌≡◌, List, Some, None, if◌then◌else◌};
ghost use Rattle.std.specs.List.{list_any};
ghost use Rattle.window_snapshot.specs.Mask.{mask_has};
ghost use Rattle.dispatch_history.specs.Delivery.{able};
ghost use Rattle.dispatch_history.specs.Effect.{Effect, past_of};
ghost use Rattle.dispatch_history.specs.Focus.{key_target};
ghost use Rattle.dispatch_history.specs.Keys.{same_key};
ghost use Rattle.dispatcher.specs.Dispatching.{IsAfter};
ghost use Rattle.why_text.specs.Lines.{first_of, key_holders};
ghost use Rattle.why_lines.specs.Holding.{HoldKeys, if_able};

use dispatcher::Dispatcher;
use input_types::{KeyArgs, KeyMsg};
use window_snapshot::mask_has;

/// The window that keys go to, with the keys that it holds. Each key is given as its last message.
#[derive(Clone, Copy)]
pub(crate) struct KeyHolder<'a> {
    pub window: u32,
    pub keys: &'a [KeyMsg],
}

/// The window that keys go to, with the keys that it holds.
fn held_by(dispatcher: &Dispatcher, window: u32) -> Option<KeyHolder<'_>>
    ensures { (es : List Effect) → IsAfter es dispatcher.now → key_target (past_of es) ≡ Some window
        → HoldKeys es result }
{
    match dispatcher.input(window) {
        Some(input) => Some(KeyHolder {
            window,
            keys: input.keys(),
        }),
        None => None,
    }
}

/// The only window that may hold keys, with the keys that it holds; None if there is no such window.
pub(crate) fn key_holder(dispatcher: &Dispatcher) -> Option<KeyHolder<'_>>
    ensures { (es : List Effect) → IsAfter es dispatcher.now → HoldKeys es result }
{
    match dispatcher.target() {
        Some(window) => held_by(dispatcher, window),
        None => None,
    }
}

/// Whether two keys are the same: the same scan code of the same device.
fn same_key(key: &KeyArgs, other: &KeyArgs) -> bool
    ensures { result ≡ same_key key.now other.now }
{
    key.device == other.device && key.scan == other.scan
}

/// Whether a key is among these.
fn has_key(keys: &[KeyMsg], key: &KeyArgs) -> bool
    ensures { result ≡ list_any (λ m. same_key key.now m.key) keys.now }
{
    keys.iter().any(|message| same_key(key, &message.key))
}

/// The window that holds these keys, if the key is among them.
fn window_of(holder: &KeyHolder, key: &KeyArgs) -> Option<u32>
    ensures { result
        ≡ (if list_any (λ m. same_key key.now m.key) holder.now.keys.now then Some holder.now.window else None) }
{
    if has_key(holder.keys, key) {
        Some(holder.window)
    } else {
        None
    }
}

/// The window that holds a key, if there is one.
pub(crate) fn holder_of(dispatcher: &Dispatcher, key: &KeyArgs) -> Option<u32>
    ensures { (es : List Effect) → IsAfter es dispatcher.now → result ≡ first_of (key_holders es key.now) }
{
    match key_holder(dispatcher) {
        Some(holder) => window_of(&holder, key),
        None => None,
    }
}

/// A channel, if it is in a mask.
fn if_able(mask: u64, channel: Option<u32>) -> Option<u32>
    ensures { result ≡ if_able (mask_has mask) channel }
{
    match channel {
        Some(channel) => {
            if mask_has(mask, channel) {
                Some(channel)
            } else {
                None
            }
        }
        None => None,
    }
}

/// The window that is given a key that goes down: the window that keys go to, if it is able to take input.
pub(crate) fn given_key(dispatcher: &Dispatcher) -> Option<u32>
    ensures { (es : List Effect) → IsAfter es dispatcher.now
        → result ≡ if_able (able es) (key_target (past_of es)) }
{
    if_able(dispatcher.able(), dispatcher.target())
}
