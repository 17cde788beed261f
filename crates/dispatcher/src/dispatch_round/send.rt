//! Sends the windows of a step their messages.
ghost use Rattle.std.specs.Prelude.{◌≡◌, ◌≤◌, ℕ, true, false};
ghost use Rattle.std.specs.Option.{option_copied};
ghost use Rattle.window_snapshot.specs.Mask.{mask_has};
ghost use Rattle.routing_rules.specs.Scene.{Scene, Step};
ghost use Rattle.routing_rules.specs.Taking.{takes, pilfers};
ghost use Rattle.route_split.specs.Tables.{ChangesAll};
ghost use Rattle.route_split.specs.Marking.{gives, taking, IsWhole};
ghost use Rattle.dispatcher.specs.DispatchChannels.Table.{opened, channel_of, input_of};
ghost use Rattle.dispatcher.specs.DispatchRound.Rounds.{IsRound, AllHoldPointers, sent_in, most_bodies};
ghost use Rattle.dispatcher.specs.DispatchRound.Rounds.{HasRoom, IsReady, IsLeft, AreListeners, IsTimely};
ghost use Rattle.dispatcher.specs.DispatchRound.Saying.{CanBeSent, GetsRound, Spends};
ghost use Rattle.dispatcher.specs.DispatchRound.Each.{SendsEach, SendsChanged};
ghost use Rattle.dispatcher.specs.DispatchRound.Outgoing.{SendsAll};

use crate::dispatch_channels::{Channels, first_of, without};
use crate::dispatch_round::listener::Listener;
use crate::dispatch_round::motions::say_motions;
use crate::dispatch_round::room::keys_to;
use crate::dispatch_round::round::Round;
use crate::dispatch_round::say::{say_change, say_keys};
use crate::key_tables::focus_change;
use crate::window_covers::Covers;
use input_types::{Moment, Pixel};
use pilfer_monitor::Losses;
use route_split::{Mark, Touches};

/// Sends one window everything of a step: motions, then keys, then a change of its focus.
fn send_one(
    to: &Listener,
    round: &Round,
    touches: &Touches,
    losses: Option<&Losses>,
    channels: &mut Channels,
)
    requires { let most = most_bodies round.now to.now.window (input_of channels.old to.now.window) in
        CanBeSent to.now.window most channels.old }
    ensures { GetsRound round.now touches.now (option_copied losses.entry) to.now channels.old channels.new }
{
    say_motions(to, round, touches, losses, channels);
    let window = to.window;
    say_keys(to, keys_to(round.keys, round.target, window), channels);
    say_change(to, focus_change(round.lost, round.gained, window), channels);
}

/// Sends the windows of a mask their messages, the first one first.
fn send_each(
    outgoing: u64,
    clock: Moment,
    origins: &[Pixel; 64],
    round: &Round,
    touches: &Touches,
    covers: &Covers,
    losses: Option<&Losses>,
    channels: &mut Channels,
)
    requires opened { (w : ℕ) → mask_has outgoing w ≡ true → w ≤ opened channels.old }
    requires live { (w : ℕ) → mask_has outgoing w ≡ true → mask_has channels.old.live w ≡ true }
    requires room { (w : ℕ) → mask_has outgoing w ≡ true → HasRoom round.now channels.old w }
    ensures { let losses = option_copied losses.entry in
        SendsEach covers.now round.now touches.now losses (mask_has outgoing) origins.now clock channels.old
        channels.new }
{
    let mut rest = outgoing;
    while rest != 0 {
        let window = first_of(rest);
        let to = Listener {
            window,
            origin: origins[window as usize - 1],
            clock,
            covers,
        };
        send_one(&to, round, touches, losses, channels);
        rest = without(rest, window);
    }
}

/// Changes the tables of touches by the mark of the step, at its place, and sends each window of a mask its messages.
fn change_and_send(
    outgoing: u64,
    clock: Moment,
    origins: &[Pixel; 64],
    round: &Round,
    touches: &mut Touches,
    covers: &Covers,
    channels: &mut Channels,
    place: u64,
)
    requires whole { IsWhole round.now.mark }
    requires opened { (w : ℕ) → mask_has outgoing w ≡ true → w ≤ opened channels.old }
    requires live { (w : ℕ) → mask_has outgoing w ≡ true → mask_has channels.old.live w ≡ true }
    requires room { (w : ℕ) → mask_has outgoing w ≡ true → HasRoom round.now channels.old w }
    ensures changes { let k = round.now.mark in
        ChangesAll touches.old touches.new (gives k) (takes (taking touches.old k)) place
        (pilfers (taking touches.old k)) }
    ensures outgoing { SendsChanged covers.now round.now touches.old touches.new (mask_has outgoing) origins.now
        clock channels.old channels.new }
{
    match round.mark {
        Mark::Pilfer { .. } => pilfer_and_send(
            outgoing, clock, origins, round, touches, covers, channels, place,
        ),
        _ => {
            touches.change_plain(&round.mark, place);
            send_each(
                outgoing, clock, origins, round, touches, covers, None, channels,
            );
        }
    }
}

/// Does the same for a mark with which a window may pilfer. It is not inlined, since the list of what each window lost
/// is large and seldom made.
#[inline(never)]
fn pilfer_and_send(
    outgoing: u64,
    clock: Moment,
    origins: &[Pixel; 64],
    round: &Round,
    touches: &mut Touches,
    covers: &Covers,
    channels: &mut Channels,
    place: u64,
)
    requires whole { IsWhole round.now.mark }
    requires opened { (w : ℕ) → mask_has outgoing w ≡ true → w ≤ opened channels.old }
    requires live { (w : ℕ) → mask_has outgoing w ≡ true → mask_has channels.old.live w ≡ true }
    requires room { (w : ℕ) → mask_has outgoing w ≡ true → HasRoom round.now channels.old w }
    ensures changes { let k = round.now.mark in
        ChangesAll touches.old touches.new (gives k) (takes (taking touches.old k)) place
        (pilfers (taking touches.old k)) }
    ensures outgoing { SendsChanged covers.now round.now touches.old touches.new (mask_has outgoing) origins.now
        clock channels.old channels.new }
{
    let losses = touches.change(&round.mark, place);
    send_each(
        outgoing,
        clock,
        origins,
        round,
        touches,
        covers,
        losses.as_ref(),
        channels,
    );
}

/// Changes the tables of touches by the mark of the step, at its place, sends the windows of the mask `outgoing` what
/// the rules of the step say, and publishes it at the clock. Takes no memory.
///
/// The mask is that of the [`listeners`](crate::dispatch_round::listeners), for which
/// [`make_room`](crate::dispatch_round::make_room) has made the room. The covers are those after the step. The
/// positions of motions count from the origins, which begin with that of window 1. No unfinished message may have been
/// delivered after the clock.
pub fn send_all(
    outgoing: u64,
    round: &Round,
    touches: &mut Touches,
    covers: &Covers,
    channels: &mut Channels,
    origins: &[Pixel; 64],
    place: u64,
    clock: Moment,
)
    requires whole { IsWhole round.now.mark }
    requires outgoing { AreListeners outgoing touches.old round.now channels.old }
    requires ready { IsReady touches.old round.now channels.old }
    requires timely { IsTimely clock channels.old }
    ensures changes { let k = round.now.mark in
        ChangesAll touches.old touches.new (gives k) (takes (taking touches.old k)) place
        (pilfers (taking touches.old k)) }
    ensures outgoing { (s : Scene) (e : Step) → IsRound s e touches.old round.now → AllHoldPointers s channels.old
        → SendsAll outgoing (sent_in covers.now round.now s e) origins.now clock channels.old channels.new }
    ensures spends { (w : ℕ) → mask_has outgoing w ≡ true → Spends round.now w channels.old channels.new }
    ensures left { (w : ℕ) → 1 ≤ w → mask_has outgoing w ≡ false → IsLeft channels.old channels.new w }
    ensures live { channels.new.live ≡ channels.old.live }
    ensures gone { (c : ℕ) → 1 ≤ c → (channel_of channels.new c).gone ≡ (channel_of channels.old c).gone }
    ensures anrs { channels.new.anrs ≡ channels.old.anrs }
{
    change_and_send(
        outgoing, clock, origins, round, touches, covers, channels, place,
    );
    channels.publish(outgoing, clock);
}
