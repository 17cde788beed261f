//! What owners of channels do: they finish messages, and pilfer.
ghost use Rattle.std.specs.Prelude.{◌≡◌, ◌++◌, ◌&&◌, ◌||◌, ◌==◌, ◌<◌, not, true, ℕ, List, None, IfOk};
ghost use Rattle.std.specs.List.{list_any};
ghost use Rattle.bits32.specs.Set.{is_in};
ghost use Rattle.window_snapshot.specs.Mask.{is_channel, mask_has};
ghost use Rattle.window_snapshot.specs.Window.{is_spy};
ghost use Rattle.route_split.specs.Tables.{holds_at};
ghost use Rattle.dispatch_history.specs.Effect.{Effect, past_of};
ghost use Rattle.dispatch_history.specs.History.{live};
ghost use Rattle.dispatch_history.specs.Reply.{pilfer_reply};
ghost use Rattle.dispatch_history.specs.Step.{scene};
ghost use Rattle.dispatcher.specs.Dispatching.{IsAfter};
ghost use Rattle.why_text.specs.Lines.{pilfer_done, pilfer_word, pilfer_words};
ghost use Rattle.why_text.specs.Text.{line};
ghost use Rattle.why_lines.specs.Lost.{ids_in};
ghost use Rattle.why_lines.specs.Growing.{with_lines};
ghost use Rattle.why_lines.specs.Owners.{again_words, answered};

use crate::lines::{PilferRefused, pilfer, pilfer_refused, responsive};
use bits32::Bits32;
use dispatcher::Dispatcher;
use input_types::{DeviceId, Moment, PointerId};
use route_split::Touches;
use std::alloc::AllocError;
use window_snapshot::{Window, mask_has, mask_less, mask_without};

/// Adds the line of a channel that responds again after a finish. The masks hold the channels that were able to take
/// input before it and after it.
pub fn add_finish(
    text: &mut Vec<u8>,
    clock: Moment,
    channel: u32,
    before: u64,
    after: u64,
) -> Result<(), AllocError>
    ensures { IfOk result (λ _. text.new.items
        ≡ with_lines clock (again_words (not (mask_has before channel) && mask_has after channel) channel)
        text.old.items) }
{
    if mask_has(mask_less(after, before), channel) {
        responsive(text, clock, channel)
    } else {
        Ok(())
    }
}

/// Whether a channel is live.
pub(crate) fn is_live(dispatcher: &Dispatcher, channel: u32) -> bool
    ensures { (es : List Effect) → IsAfter es dispatcher.now → result ≡ live (past_of es) channel }
{
    match dispatcher.counts(channel) {
        Some(counts) => counts.live,
        None => false,
    }
}

/// Whether the window of a channel is among these windows and is a spy.
fn has_spy(windows: &[Window], channel: u32) -> bool
    ensures { result ≡ list_any (λ v. v.channel == channel && is_spy v) windows.now }
{
    windows
        .iter()
        .any(|window| window.channel == channel && window.is_spy())
}

/// The mask of the windows that hold the pointer of a device with this id.
fn holding(touches: &Touches, device: DeviceId, id: u8) -> u64
    requires { id < 32 }
    ensures { (w : ℕ) → mask_has result w ≡ holds_at touches.now w device id }
{
    match PointerId::new(id) {
        Some(id) => touches.holding(device, id),
        None => 0,
    }
}

/// The mask, plus the windows that hold a pointer if its id is in the set.
fn with_holders(mask: u64, touches: &Touches, device: DeviceId, ids: Bits32, id: u8) -> u64
    requires { id < 32 }
    ensures { (w : ℕ) → mask_has result w
        ≡ (mask_has mask w || (is_in id ids && holds_at touches.now w device id)) }
{
    if ids.has(id) {
        mask | holding(touches, device, id)
    } else {
        mask
    }
}

/// The mask of the windows that hold some of these pointers of a device.
fn holders_of(touches: &Touches, device: DeviceId, ids: Bits32) -> u64
    ensures { (w : ℕ) → mask_has result w ≡ list_any (λ i. holds_at touches.now w device i) (ids_in ids) }
{
    let mut mask = 0;
    for id in 0..32 {
        mask = with_holders(mask, touches, device, ids, id);
    }
    mask
}

/// Why a pilfer is refused, if it is.
fn refusal(dispatcher: &Dispatcher, channel: u32, device: DeviceId) -> Option<PilferRefused>
    ensures value { (es : List Effect) → IsAfter es dispatcher.now
        → answered result ≡ pilfer_reply es channel device }
    ensures channel { result ≡ None → is_channel channel ≡ true }
{
    if !is_live(dispatcher, channel) {
        return Some(PilferRefused::Gone);
    }
    if !has_spy(dispatcher.windows().windows(), channel) {
        return Some(PilferRefused::NotSpy);
    }
    if !mask_has(dispatcher.touches().holders(device), channel) {
        return Some(PilferRefused::NothingHeld);
    }
    None
}

/// Adds the line of a successful pilfer.
fn add_done(
    text: &mut Vec<u8>,
    clock: Moment,
    dispatcher: &Dispatcher,
    channel: u32,
    device: DeviceId,
) -> Result<(), AllocError>
    requires { is_channel channel ≡ true }
    ensures { (es : List Effect) → IsAfter es dispatcher.now
        → IfOk result (λ _. text.new.items
        ≡ text.old.items
        ++ line clock
        (pilfer_word channel device (pilfer_done (scene dispatcher.now.displays es) channel device))) }
{
    let touches = dispatcher.touches();
    let ids = touches.held(channel, device);
    let losers = mask_without(holders_of(touches, device, ids), channel);
    pilfer(text, clock, channel, device, ids, losers)
}

/// Adds the causes of a pilfer. They are known before it is made.
pub fn add_pilfer(
    text: &mut Vec<u8>,
    clock: Moment,
    dispatcher: &Dispatcher,
    channel: u32,
    device: DeviceId,
) -> Result<(), AllocError>
    ensures { (es : List Effect) → IsAfter es dispatcher.now
        → IfOk result (λ _. text.new.items
        ≡ text.old.items
        ++ line clock
        (pilfer_words (pilfer_reply es channel device) (scene dispatcher.now.displays es) channel device)) }
{
    match refusal(dispatcher, channel, device) {
        Some(refused) => pilfer_refused(text, clock, channel, device, refused),
        None => add_done(text, clock, dispatcher, channel, device),
    }
}
