//! What a window loses when it is no longer able to take input: everything that it holds.
ghost use Rattle.std.specs.Prelude.{◌≡◌, ◌++◌, ◌==◌, List, [], true, map, flat_map, if◌then◌else◌, IfOk};
ghost use Rattle.window_snapshot.specs.Mask.{is_channel};
ghost use Rattle.routing_rules.specs.Outgoing.{devices};
ghost use Rattle.dispatch_calls.specs.declared.reply.Reply.TheVariants.{Done, Gone};
ghost use Rattle.dispatch_history.specs.Effect.{Effect, past_of};
ghost use Rattle.dispatch_history.specs.History.{live};
ghost use Rattle.dispatch_history.specs.Keys.{keys};
ghost use Rattle.dispatcher.specs.Dispatching.{IsAfter};
ghost use Rattle.why_text.specs.Lines.{removed_word, removed_words};
ghost use Rattle.why_text.specs.Lost.{holds, ids_item, lost_word};
ghost use Rattle.why_text.specs.Text.{line};
ghost use Rattle.why_text.specs.Words.{ids_that};
ghost use Rattle.why_lines.specs.Lost.{ids_from};
ghost use Rattle.why_lines.specs.Losing.{LosesAll};

use crate::holders::{KeyHolder, key_holder};
use crate::lines::{Lost, removed, removed_gone};
use crate::owners::is_live;
use crate::rows::row_of;
use bits32::Bits32;
use dispatcher::Dispatcher;
use input_types::{KeyArgs, KeyMsg, Moment};
use std::alloc::{AllocError, Global};
use window_snapshot::is_channel;

/// The ids of the pointers that a window holds, of each device.
pub(crate) fn ids_of(dispatcher: &Dispatcher, window: u32) -> [Bits32; 8]
    requires { is_channel window ≡ true }
    ensures { (es : List Effect) → IsAfter es dispatcher.now
        → ids_from 1 result ≡ flat_map (λ d. ids_item d (ids_that (holds es window d))) devices }
{
    row_of(dispatcher.touches(), window)
}

/// The keys of messages.
fn keys_of(alloc: Global, messages: &[KeyMsg]) -> Result<Vec<KeyArgs>, AllocError>
    ensures { IfOk result (λ v. v.items ≡ map (λ m. m.key) messages.now) }
{
    messages.iter().map(|message| message.key).collect(alloc)
}

/// The keys that a window holds, if it is the window that holds keys.
fn keys_at(alloc: Global, holder: &KeyHolder, window: u32) -> Result<Vec<KeyArgs>, AllocError>
    ensures { IfOk result (λ v. v.items
        ≡ (if window == holder.now.window then map (λ m. m.key) holder.now.keys.now else [])) }
{
    if window == holder.window {
        keys_of(alloc, holder.keys)
    } else {
        Ok(Vec::new(alloc))
    }
}

/// The keys that a window holds.
pub(crate) fn keys_held(
    alloc: Global,
    dispatcher: &Dispatcher,
    window: u32,
) -> Result<Vec<KeyArgs>, AllocError>
    ensures { (es : List Effect) → IsAfter es dispatcher.now
        → IfOk result (λ v. v.items ≡ keys es window) }
{
    match key_holder(dispatcher) {
        Some(holder) => keys_at(alloc, &holder, window),
        None => Ok(Vec::new(alloc)),
    }
}

/// Adds the line of a removed channel, whose window loses everything that it holds.
fn add_removed(
    text: &mut Vec<u8>,
    clock: Moment,
    dispatcher: &Dispatcher,
    channel: u32,
) -> Result<(), AllocError>
    requires { is_channel channel ≡ true }
    ensures { (es : List Effect) (x : Effect) → IsAfter es dispatcher.now → LosesAll x es channel
        → IfOk result (λ _. text.new.items
        ≡ text.old.items ++ line clock (removed_word channel (lost_word x es channel))) }
{
    let ids = ids_of(dispatcher, channel);
    let keys = keys_held(*text.allocator(), dispatcher, channel)?;
    let lost = Lost {
        ids: &ids,
        keys: &keys,
    };
    removed(text, clock, channel, &lost)
}

/// Whether a channel is live.
fn is_there(dispatcher: &Dispatcher, channel: u32) -> bool
    ensures value { (es : List Effect) → IsAfter es dispatcher.now → result ≡ live (past_of es) channel }
    ensures number { result ≡ true → is_channel channel ≡ true }
{
    if is_channel(channel) {
        is_live(dispatcher, channel)
    } else {
        false
    }
}

/// Adds the line of the removal of a channel. The line is known before the removal is made.
pub(crate) fn add_removal(
    text: &mut Vec<u8>,
    clock: Moment,
    dispatcher: &Dispatcher,
    channel: u32,
) -> Result<(), AllocError>
    ensures { (es : List Effect) (x : Effect) → IsAfter es dispatcher.now
        → (live (past_of es) channel ≡ true → LosesAll x es channel)
        → IfOk result (λ _. text.new.items
        ≡ text.old.items
        ++ line clock (removed_words (if live (past_of es) channel then Done else Gone) x es channel)) }
{
    if is_there(dispatcher, channel) {
        add_removed(text, clock, dispatcher, channel)
    } else {
        removed_gone(text, clock, channel)
    }
}
