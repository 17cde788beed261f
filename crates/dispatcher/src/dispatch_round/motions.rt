//! Sends one window the motions of a step.
ghost use Rattle.std.specs.Prelude.{◌≡◌, ℕ, true, ◌==◌, List, Option, Some, length, flat_map};
ghost use Rattle.std.specs.List.{list_any};
ghost use Rattle.std.specs.Option.{option_copied};
ghost use Rattle.bits32.specs.Set.{is_in};
ghost use Rattle.routing_rules.specs.Outgoing.{devices};
ghost use Rattle.dispatcher.specs.CancelSynthesis.Tracked.{pointers_of};
ghost use Rattle.dispatcher.specs.DispatchChannels.Table.{input_of};
ghost use Rattle.dispatcher.specs.DispatchRound.Bodies.{told};
ghost use Rattle.dispatcher.specs.DispatchRound.Rounds.{may_take, count_of, most_motions};
ghost use Rattle.dispatcher.specs.DispatchRound.Saying.{CanBeSent, SendsOne, GetsMotions, losses, pilfered_from};

use crate::dispatch_channels::Channels;
use crate::dispatch_round::devices::device_at;
use crate::dispatch_round::listener::Listener;
use crate::dispatch_round::round::Round;
use crate::dispatch_round::say::{say_cancels, say_found, say_moves};
use crate::pointers_by_id::ids_of;
use bits32::Bits32;
use input_types::{DeviceId, Motion};
use pilfer_monitor::Losses;
use route_split::{Mark, Touches};
use window_snapshot::mask_has;

/// Whether a step with this mark that is no motion may take pointers from windows of channels that stay.
pub(crate) fn may_take(mark: &Mark) -> bool
    ensures { result ≡ may_take mark.now }
{
    match *mark {
        Mark::NoOp | Mark::Forget { window: _ } => false,
        _ => true,
    }
}

/// Cancels the pointers of a device that are down in the window's stream and that it no longer holds.
fn say_loss(to: &Listener, device: DeviceId, touches: &Touches, channels: &mut Channels)
    requires { let had = pointers_of (input_of channels.old to.now.window) device in
        CanBeSent to.now.window (length had) channels.old }
    ensures { let input = input_of channels.old to.now.window in
        let lost = losses touches.now to.now.window input device in
        SendsOne to.now (told to.now.covers.now to.now.window lost) channels.old channels.new }
{
    let held = touches.held(to.window, device);
    let cancels = channels.input(to.window).cancels_but(device, held);
    say_cancels(to, cancels, channels);
}

/// Does the same for all devices, one after another.
fn say_losses(to: &Listener, touches: &Touches, channels: &mut Channels)
    requires { CanBeSent to.now.window (count_of (input_of channels.old to.now.window) devices) channels.old }
    ensures { let input = input_of channels.old to.now.window in
        let lost = flat_map (losses touches.now to.now.window input) devices in
        SendsOne to.now (told to.now.covers.now to.now.window lost) channels.old channels.new }
{
    'devices: for place in 0..8u8 {
        say_loss(to, device_at(place), touches, channels);
    }
}

/// Cancels what the window lost to one that pilfers.
fn say_pilfered(to: &Listener, mark: &Mark, losses: &Losses, channels: &mut Channels)
    requires { CanBeSent to.now.window (count_of (input_of channels.old to.now.window) devices) channels.old }
    ensures { let input = input_of channels.old to.now.window in
        let lost = pilfered_from mark.now losses.now to.now.window input in
        SendsOne to.now (told to.now.covers.now to.now.window lost) channels.old channels.new }
{
    match *mark {
        Mark::Pilfer { device, window: _ } => {
            let lost = losses.lost(to.window);
            let cancels = channels.input(to.window).cancels(device, lost);
            say_cancels(to, cancels, channels);
        }
        _ => {}
    }
}

/// Sends what the rules say of the motion of a step, if the window held these ids before. It is not inlined, since most
/// motions only move.
#[inline(never)]
fn say_sent(
    to: &Listener,
    round: &Round,
    motion: &Motion,
    touches: &Touches,
    before: Bits32,
    channels: &mut Channels,
)
    requires motion { option_copied round.now.motion ≡ Some motion.now }
    requires before { (i : ℕ) → is_in i before
        ≡ list_any (λ p. p.id == i) (pointers_of (input_of channels.old to.now.window) motion.now.device) }
    requires room { let input = input_of channels.old to.now.window in
        CanBeSent to.now.window (most_motions (option_copied round.now.motion) input) channels.old }
    ensures { (lost : Option (List ℕ)) → GetsMotions round.now touches.now lost to.now channels.old channels.new }
{
    // Read only for its clause: devices have the numbers 1 to 8, which contracts cannot see from the type.
    let _number = motion.device.get();
    let watches = mask_has(round.watchers, to.window);
    let sends = touches.sends(motion, to.window, before, watches);
    say_found(to, motion.device, &sends, channels);
}

/// Sends the motions of a step, by which the tables of touches have changed.
pub(crate) fn say_motions(
    to: &Listener,
    round: &Round,
    touches: &Touches,
    losses: Option<&Losses>,
    channels: &mut Channels,
)
    requires { let input = input_of channels.old to.now.window in
        CanBeSent to.now.window (most_motions (option_copied round.now.motion) input) channels.old }
    ensures { GetsMotions round.now touches.now (option_copied losses.entry) to.now channels.old channels.new }
{
    match round.motion {
        Some(motion) => {
            // Read only for its clause: devices have the numbers 1 to 8, which contracts cannot see from the type.
            let _number = motion.device.get();
            let before = ids_of(channels.input(to.window).pointers(motion.device));
            match touches.moving(motion, to.window, before) {
                Some(ids) => say_moves(to, motion, ids, channels),
                None => say_sent(to, round, motion, touches, before, channels),
            }
        }
        None => match losses {
            Some(losses) => say_pilfered(to, &round.mark, losses, channels),
            None => {
                if may_take(&round.mark) {
                    say_losses(to, touches, channels);
                }
            }
        },
    }
}
