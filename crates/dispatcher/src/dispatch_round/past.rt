//! A Move that bypasses the channels: what a window is sent of it is tracked, counted and published, and released at
//! once. A reader makes its message from what the window was sent.
ghost use Rattle.std.specs.Prelude.{◌≡◌, ◌≤◌, ◌&&◌, ◌||◌, ◌==◌, ℕ, true, false, []};
ghost use Rattle.std.specs.List.{list_any};
ghost use Rattle.window_snapshot.specs.Mask.{is_channel, mask_has};
ghost use Rattle.route_split.specs.Tables.{holds_at};
ghost use Rattle.dispatcher.specs.DispatchChannels.Table.{opened, channel_of};
ghost use Rattle.dispatcher.specs.DispatchRound.Past.{MovesPast, PassesEach, PassesOne};
ghost use Rattle.dispatcher.specs.DispatchRound.Rounds.{IsTimely};
ghost use Rattle.dispatcher.specs.DispatchRound.Saying.{CanBeSent};

use crate::dispatch_channels::{Channels, first_of, without};
use crate::pointers_by_id::PointersById;
use input_types::{Moment, Motion};
use route_split::Touches;
use window_snapshot::mask_with;

/// Whether no channel of a mask keeps a message.
#[inline(always)]
pub fn keep_none(mask: u64, channels: &Channels) -> bool
    requires { (w : ℕ) → mask_has mask w ≡ true → w ≤ opened channels.now }
    ensures none { result ≡ true → (w : ℕ) → mask_has mask w ≡ true → (channel_of channels.now w).messages ≡ [] }
    ensures some { result ≡ false
        → (w : ℕ) × (mask_has mask w ≡ true) × ¬ ((channel_of channels.now w).messages ≡ []) }
{
    let mut rest = mask;
    while rest != 0 {
        let window = first_of(rest);
        if !channels.keeps_none(window) {
            return false;
        }
        rest = without(rest, window);
    }
    true
}

/// Sends one window a Move of the pointers that it holds, and returns whether the motion lists any of them.
#[inline(always)]
fn move_past(
    window: u32,
    motion: &Motion,
    pointers: &PointersById,
    touches: &Touches,
    channels: &mut Channels,
) -> bool
    requires pointers { pointers.now ≡ motion.now.pointers }
    requires room { CanBeSent window 1 channels.old }
    requires none { (channel_of channels.old window).messages ≡ [] }
    ensures sent { result ≡ list_any (λ p. holds_at touches.now window motion.now.device p.id) motion.now.pointers }
    ensures passes { PassesOne touches.now motion.now window channels.old channels.new }
{
    let held = touches.held(window, motion.device);
    if !pointers.has_some(held) {
        return false;
    }
    channels.send_moves_past(window, motion.device, pointers, held);
    true
}

/// The mask, with the window added if it moves.
#[inline(always)]
fn with_if(mask: u64, window: u32, moves: bool) -> u64
    requires { is_channel window ≡ true }
    ensures { (w : ℕ) → mask_has result w ≡ (mask_has mask w || (moves && (w == window))) }
{
    if moves { mask_with(mask, window) } else { mask }
}

/// Sends such a Move to the windows of a mask, and returns the mask of those that hold some of the pointers.
#[inline(always)]
fn move_each(outgoing: u64, motion: &Motion, touches: &Touches, channels: &mut Channels) -> u64
    requires opened { (w : ℕ) → mask_has outgoing w ≡ true → w ≤ opened channels.old }
    requires live { (w : ℕ) → mask_has outgoing w ≡ true → mask_has channels.old.live w ≡ true }
    requires none { (w : ℕ) → mask_has outgoing w ≡ true → (channel_of channels.old w).messages ≡ [] }
    requires room { (w : ℕ) → mask_has outgoing w ≡ true → CanBeSent w 1 channels.old }
    ensures sent { (w : ℕ) → mask_has result w
        ≡ (mask_has outgoing w && list_any (λ p. holds_at touches.now w motion.now.device p.id) motion.now.pointers) }
    ensures passes { PassesEach touches.now motion.now (mask_has outgoing) channels.old channels.new }
{
    let pointers = PointersById::new(&motion.pointers);
    let mut sent = 0;
    let mut rest = outgoing;
    while rest != 0 {
        let window = first_of(rest);
        let moves = move_past(window, motion, &pointers, touches, channels);
        sent = with_if(sent, window, moves);
        rest = without(rest, window);
    }
    sent
}

/// Sends the windows of the mask `outgoing` what the rules of the step of a Move say, and publishes it at the clock, as
/// [`send_steady`](crate::dispatch_round::send_steady) does, but keeps no message. Returns the mask of the windows that
/// were sent one. Takes no memory.
///
/// The mask is the one that [`make_steady_room`](crate::dispatch_round::make_steady_room) returned for the round of the
/// Move, and no channel of it keeps a message.
#[inline(always)]
pub fn send_past(
    outgoing: u64,
    motion: &Motion,
    touches: &Touches,
    channels: &mut Channels,
    clock: Moment,
) -> u64
    requires opened { (w : ℕ) → mask_has outgoing w ≡ true → w ≤ opened channels.old }
    requires live { (w : ℕ) → mask_has outgoing w ≡ true → mask_has channels.old.live w ≡ true }
    requires none { (w : ℕ) → mask_has outgoing w ≡ true → (channel_of channels.old w).messages ≡ [] }
    requires room { (w : ℕ) → mask_has outgoing w ≡ true → CanBeSent w 1 channels.old }
    requires timely { IsTimely clock channels.old }
    ensures { MovesPast touches.now motion.now outgoing result clock channels.old channels.new }
{
    let sent = move_each(outgoing, motion, touches, channels);
    channels.publish(outgoing, clock);
    sent
}
