//! Sends one window motions of a device, keys, or a change of its focus. None of this takes memory.
ghost use Rattle.std.specs.Prelude.{◌≡◌, max, [], ◌∷◌, map, length};
ghost use Rattle.input_types.specs.declared.message.Body.TheVariants.{Key as KeyBody, Focus as FocusBody};
ghost use Rattle.input_types.specs.declared.motion.MotionAction.TheVariants.{Move};
ghost use Rattle.routing_rules.specs.Outgoing.{listing, plain};
ghost use Rattle.bits32.specs.Set.{is_in};
ghost use Rattle.dispatcher.specs.CancelSynthesis.Cancelling.{still_sent};
ghost use Rattle.dispatcher.specs.CancelSynthesis.Ends.{pointers_cancelled};
ghost use Rattle.dispatcher.specs.CancelSynthesis.Tracked.{pointers_of};
ghost use Rattle.dispatcher.specs.KeyTables.Focused.{change_sent};
ghost use Rattle.dispatcher.specs.DispatchChannels.Table.{input_of};
ghost use Rattle.routing_rules.specs.Cover.{Cover, flags_of, flags_under};
ghost use Rattle.dispatcher.specs.DispatchRound.Bodies.{told};
ghost use Rattle.dispatcher.specs.DispatchRound.Saying.{CanBeSent, SendsOne, motions_by};

use crate::cancel_synthesis::Cancels;
use crate::dispatch_channels::Channels;
use crate::dispatch_round::listener::Listener;
use crate::pointers_by_id::PointersById;
use bits32::Bits32;
use input_types::{Body, DeviceId, KeyMsg, Motion, MotionAction};
use route_split::Sends;

/// Sends one body.
fn say(to: &Listener, body: &Body, channels: &mut Channels)
    requires { CanBeSent to.now.window 1 channels.old }
    ensures { SendsOne to.now (body.now ∷ []) channels.old channels.new }
{
    channels.send(to.window, body, to.origin, to.clock);
}

/// The flags of a motion with those of a cover; a touch outside gets none of these.
fn flags_under(action: MotionAction, flags: u32, cover: u32) -> u32
    ensures { (c : Cover) → cover ≡ flags_of c → result ≡ flags_under action c flags }
{
    match action {
        MotionAction::Outside => flags,
        _ => flags | cover,
    }
}

/// Sends one motion, with the flags of what lies over the window.
fn say_motion(to: &Listener, motion: &Motion, channels: &mut Channels)
    requires { CanBeSent to.now.window 1 channels.old }
    ensures { SendsOne to.now (told to.now.covers.now to.now.window (motion.now ∷ [])) channels.old channels.new }
{
    let cover = to.covers.flags(to.window, motion.device);
    let flags = flags_under(motion.action, motion.flags, cover);
    channels.send_motion(to.window, motion, flags, to.origin, to.clock);
}

/// Sends a Move of the pointers of a motion with these ids.
pub(crate) fn say_moves(to: &Listener, motion: &Motion, ids: Bits32, channels: &mut Channels)
    requires { CanBeSent to.now.window 1 channels.old }
    ensures { SendsOne to.now (told to.now.covers.now to.now.window
        (plain motion.now.device Move (listing (λ i. is_in i ids) motion.now.pointers) ∷ []))
        channels.old channels.new }
{
    let pointers = PointersById::new(&motion.pointers);
    channels.send_moves(
        to.window,
        motion.device,
        to.covers.flags(to.window, motion.device),
        &pointers,
        ids,
        to.origin,
        to.clock,
    );
}

/// Sends the cancels of pointers that are taken from the window, one after another.
pub(crate) fn say_cancels(to: &Listener, cancels: Cancels, channels: &mut Channels)
    requires { CanBeSent to.now.window (length (still_sent cancels)) channels.old }
    ensures { SendsOne to.now (told to.now.covers.now to.now.window (still_sent cancels)) channels.old channels.new }
{
    let mut left = cancels;
    while let Some(cancel) = left.next() {
        say_motion(to, &cancel, channels);
    }
}

/// Sends what the rules found for a device.
pub(crate) fn say_found(to: &Listener, device: DeviceId, sends: &Sends, channels: &mut Channels)
    requires { let had = pointers_of (input_of channels.old to.now.window) device in
        CanBeSent to.now.window (max 1 (length had)) channels.old }
    ensures { let had = pointers_of (input_of channels.old to.now.window) device in
        SendsOne to.now (told to.now.covers.now to.now.window (motions_by sends.now device had)) channels.old
        channels.new }
{
    match sends {
        Sends::Nothing => {}
        Sends::One(motion) => say_motion(to, motion, channels),
        Sends::Cancels { lost } => say_lost(to, device, *lost, channels),
    }
}

/// Sends the cancels of pointers of a device that the window lost. It is not inlined, since cancels are large and rare.
#[inline(never)]
fn say_lost(to: &Listener, device: DeviceId, lost: Bits32, channels: &mut Channels)
    requires { let had = pointers_of (input_of channels.old to.now.window) device in
        CanBeSent to.now.window (max 1 (length had)) channels.old }
    ensures { let had = pointers_of (input_of channels.old to.now.window) device in
        SendsOne to.now
        (told to.now.covers.now to.now.window (pointers_cancelled device (λ i. is_in i lost) had)) channels.old
        channels.new }
{
    let cancels = channels.input(to.window).cancels(device, lost);
    say_cancels(to, cancels, channels);
}

/// Sends key messages, in order.
pub(crate) fn say_keys(to: &Listener, keys: &[KeyMsg], channels: &mut Channels)
    requires { CanBeSent to.now.window (length keys.now) channels.old }
    ensures { SendsOne to.now (map KeyBody keys.now) channels.old channels.new }
{
    for message in keys {
        say_key(to, message, channels);
    }
}

/// Sends one key message.
fn say_key(to: &Listener, message: &KeyMsg, channels: &mut Channels)
    requires { CanBeSent to.now.window 1 channels.old }
    ensures { SendsOne to.now (KeyBody message.now ∷ []) channels.old channels.new }
{
    channels.send_key(to.window, message, to.clock);
}

/// Sends whether the window has the focus now, if that changed.
pub(crate) fn say_change(to: &Listener, change: Option<bool>, channels: &mut Channels)
    requires { CanBeSent to.now.window (length (change_sent change)) channels.old }
    ensures { SendsOne to.now (change_sent change) channels.old channels.new }
{
    match change {
        Some(has_focus) => say_focus(to, has_focus, channels),
        None => {}
    }
}

/// Sends that the window has the focus now, or lost it. It is not inlined, so that a round without a change makes no
/// room for its body.
#[inline(never)]
fn say_focus(to: &Listener, has_focus: bool, channels: &mut Channels)
    requires { CanBeSent to.now.window 1 channels.old }
    ensures { SendsOne to.now (FocusBody has_focus ∷ []) channels.old channels.new }
{
    say(to, &Body::Focus(has_focus), channels);
}
