//! Steady rounds: they give no window a pointer, take none from a window, and leave the focus. So they send a window
//! only a Move of its pointers, and keys.
ghost use Rattle.std.specs.Prelude.{◌≡◌, ◌≤◌, ◌<◌, ◌^◌, ℕ, true, false, None, length, OnOk, IfOk, IsOk};
ghost use Rattle.std.specs.Option.{option_copied};
ghost use Rattle.window_snapshot.specs.Mask.{mask_has};
ghost use Rattle.routing_rules.specs.Scene.{Scene, Step};
ghost use Rattle.routing_rules.specs.Taking.{takes, pilfers};
ghost use Rattle.route_split.specs.Tables.{ChangesAll};
ghost use Rattle.route_split.specs.Marking.{gives, taking};
ghost use Rattle.dispatcher.specs.DispatchChannels.Table.{opened, IsOpened, channel_of, but_for_room, NoLessRoom};
ghost use Rattle.dispatcher.specs.DispatchRound.Rounds.{IsRound, AllHoldPointers, sent_in, IsLeft, AreListeners, IsTimely};
ghost use Rattle.dispatcher.specs.DispatchRound.Saying.{CanBeSent, SendsOne, GetsRound};
ghost use Rattle.dispatcher.specs.DispatchRound.Each.{SendsEach};
ghost use Rattle.dispatcher.specs.DispatchRound.Steady.{IsSteady, held_by, most_moves, most_steady, HasSteadyRoom, GetsMoves, SpendsSteady, moved};
ghost use Rattle.dispatcher.specs.DispatchRound.Outgoing.{SendsAll};

use crate::dispatch_channels::{Channels, first_of, without};
use crate::dispatch_round::concern::keyed;
use crate::dispatch_round::listener::Listener;
use crate::dispatch_round::room::keys_to;
use crate::dispatch_round::round::Round;
use crate::dispatch_round::say::say_keys;
use crate::pointers_by_id::PointersById;
use crate::window_covers::Covers;
use input_types::{Moment, Motion, Pixel};
use route_split::Touches;
use std::alloc::AllocError;
use std::marker::Model;

/// The mask of the windows that hold something of the device of a motion.
#[inline(always)]
fn holders(motion: Option<&Motion>, touches: &Touches) -> u64
    ensures { (w : ℕ) → mask_has result w ≡ held_by touches.now (option_copied motion.entry) w }
{
    match motion {
        Some(motion) => touches.holders(motion.device),
        None => 0,
    }
}

/// The mask of the live windows that may be sent something.
#[inline(always)]
fn recipients(round: &Round, touches: &Touches, channels: &Channels) -> u64
    requires { IsSteady round.now }
    ensures { AreListeners result touches.now round.now channels.now }
{
    (holders(round.motion, touches) | keyed(round.keys, round.target)) & channels.live()
}

/// How many Moves a window may be sent.
#[inline(always)]
fn most_moves(motion: Option<&Motion>) -> usize
    ensures value { result ≡ most_moves (option_copied motion.entry) }
    ensures few { result ≤ 1 }
{
    match motion {
        Some(_) => 1,
        None => 0,
    }
}

/// The most messages that a window is sent. If there is no memory for so many, none.
#[inline(always)]
fn most_steady(round: &Round, window: u32) -> Result<u32, AllocError>
    ensures value { IfOk result (λ n. n ≡ most_steady round.now window) }
    ensures fits { length round.now.keys.now < 2 ^ 31 → IsOk result }
{
    let keys = keys_to(round.keys, round.target, window).len();
    match u32::try_from(most_moves(round.motion) + keys) {
        Ok(count) => Ok(count),
        Err(_) => Err(AllocError),
    }
}

/// Makes room for what a steady round sends a window.
#[inline(always)]
fn make_room_in(round: &Round, channels: &mut Channels, window: u32) -> Result<(), AllocError>
    requires { IsOpened channels.old window }
    ensures ok { OnOk result (HasSteadyRoom round.now channels.new window) }
    ensures same { but_for_room channels.new ≡ but_for_room channels.old }
    ensures room { NoLessRoom channels.old channels.new }
    ensures opened { opened channels.new ≡ opened channels.old }
    ensures inputs { length channels.new.inputs ≡ length channels.old.inputs }
    ensures roomy { length round.now.keys.now < 2 ^ 31 → HasSteadyRoom round.now channels.old window → IsOk result }
{
    let count = most_steady(round, window)?;
    channels.make_ready(window, count)
}

/// Makes room for everything that a steady round sends the live windows, so that [`send_steady`] takes no memory, and
/// returns their mask. Nothing changes but the room of channels, with or without memory. If they have enough already,
/// no memory is taken.
#[inline(always)]
pub fn make_steady_room(
    round: &Round,
    touches: &Touches,
    channels: &mut Channels,
) -> Result<u64, AllocError>
    requires { IsSteady round.now }
    ensures outgoing { IfOk result (λ outgoing. AreListeners outgoing touches.now round.now channels.new) }
    ensures enough { IfOk result (λ outgoing.
        (w : ℕ) → mask_has outgoing w ≡ true → HasSteadyRoom round.now channels.new w) }
    ensures same { but_for_room channels.new ≡ but_for_room channels.old }
    ensures room { NoLessRoom channels.old channels.new }
    ensures roomy { length round.now.keys.now < 2 ^ 31
        → ((w : ℕ) → mask_has channels.old.live w ≡ true → HasSteadyRoom round.now channels.old w) → IsOk result }
{
    // Its clauses say that what each window was sent stays as it was.
    let _opened = channels.opened();
    let outgoing = recipients(round, touches, channels);
    let mut rest = outgoing;
    while rest != 0 {
        let window = first_of(rest);
        make_room_in(round, channels, window)?;
        rest = without(rest, window);
    }
    Ok(outgoing)
}

/// A motion whose pointers are found by their ids.
#[derive(Drop)]
struct MotionById<'a> {
    motion: &'a Motion,
    pointers: PointersById<'a>,
}

impl<'a> Model for MotionById<'a> {
    ghost use Rattle.std.specs.Prelude.{◌≡◌};
    ghost use Rattle.input_types.specs.declared.motion.Motion.{Motion as Element};

    ghost Value = { Element };

    ghost view = { λ m. m.motion.now };

    ghost invariant = { λ m. m.pointers ≡ m.motion.now.pointers };
}

/// The motion of a round with its pointers by id, if the round has a motion.
#[inline(always)]
fn by_id<'a>(motion: Option<&'a Motion>) -> Option<MotionById<'a>>
    ensures { result ≡ option_copied motion.entry }
{
    match motion {
        Some(motion) => Some(MotionById {
            motion,
            pointers: PointersById::new(&motion.pointers),
        }),
        None => None,
    }
}

/// Sends one window a Move of the pointers that it holds, if the motion lists some of them.
#[inline(always)]
fn move_held(
    to: &Listener,
    motion: &Motion,
    pointers: &PointersById,
    touches: &Touches,
    channels: &mut Channels,
)
    requires pointers { pointers.now ≡ motion.now.pointers }
    requires room { CanBeSent to.now.window 1 channels.old }
    ensures { SendsOne to.now (moved to.now.covers.now touches.now motion.now to.now.window) channels.old channels.new }
{
    let held = touches.held(to.window, motion.device);
    if pointers.has_some(held) {
        channels.send_moves(
            to.window,
            motion.device,
            to.covers.flags(to.window, motion.device),
            pointers,
            held,
            to.origin,
            to.clock,
        );
    }
}

/// Sends one window the motion of a steady round, if the round has one.
#[inline(always)]
fn say_steady(
    to: &Listener,
    round: &Round,
    motion: Option<&MotionById>,
    touches: &Touches,
    channels: &mut Channels,
)
    requires steady { IsSteady round.now }
    requires motion { option_copied motion ≡ option_copied round.now.motion }
    requires room { CanBeSent to.now.window (most_moves (option_copied round.now.motion)) channels.old }
    ensures { GetsMoves round.now touches.now to.now channels.old channels.new }
{
    match motion {
        Some(found) => {
            // Read only for its clause: devices have the numbers 1 to 8, which contracts cannot see from the type.
            let _number = found.motion.device.get();
            move_held(to, found.motion, &found.pointers, touches, channels);
        }
        None => {}
    }
}

/// Sends one window everything of a steady round: its motion, and then its keys.
#[inline(always)]
fn send_one(
    to: &Listener,
    round: &Round,
    motion: Option<&MotionById>,
    touches: &Touches,
    channels: &mut Channels,
)
    requires steady { IsSteady round.now }
    requires motion { option_copied motion ≡ option_copied round.now.motion }
    requires room { CanBeSent to.now.window (most_steady round.now to.now.window) channels.old }
    ensures gets { GetsRound round.now touches.now None to.now channels.old channels.new }
    ensures spends { SpendsSteady round.now channels.old channels.new to.now.window }
{
    say_steady(to, round, motion, touches, channels);
    say_keys(to, keys_to(round.keys, round.target, to.window), channels);
}

/// Sends the windows of a mask a steady round, the first one first.
#[inline(always)]
fn send_each(
    outgoing: u64,
    clock: Moment,
    origins: &[Pixel; 64],
    round: &Round,
    touches: &Touches,
    covers: &Covers,
    channels: &mut Channels,
)
    requires steady { IsSteady round.now }
    requires opened { (w : ℕ) → mask_has outgoing w ≡ true → w ≤ opened channels.old }
    requires live { (w : ℕ) → mask_has outgoing w ≡ true → mask_has channels.old.live w ≡ true }
    requires room { (w : ℕ) → mask_has outgoing w ≡ true → HasSteadyRoom round.now channels.old w }
    ensures each { SendsEach covers.now round.now touches.now None (mask_has outgoing) origins.now clock channels.old
        channels.new }
    ensures spends { (w : ℕ) → mask_has outgoing w ≡ true → SpendsSteady round.now channels.old channels.new w }
{
    let motion = by_id(round.motion);
    let mut rest = outgoing;
    while rest != 0 {
        let window = first_of(rest);
        let to = Listener {
            window,
            origin: origins[window as usize - 1],
            clock,
            covers,
        };
        send_one(&to, round, motion.as_ref(), touches, channels);
        rest = without(rest, window);
    }
}

/// Sends the windows of the mask `outgoing` what the rules of the step of a steady round say, and publishes it at the
/// clock. The result is that of [`send_all`](crate::dispatch_round::send_all), with less work. Takes no memory.
///
/// The mask is the one that [`make_steady_room`] returned.
#[inline(always)]
pub fn send_steady(
    outgoing: u64,
    round: &Round,
    touches: &mut Touches,
    covers: &Covers,
    channels: &mut Channels,
    origins: &[Pixel; 64],
    place: u64,
    clock: Moment,
)
    requires steady { IsSteady round.now }
    requires outgoing { AreListeners outgoing touches.old round.now channels.old }
    requires enough { (w : ℕ) → mask_has outgoing w ≡ true → HasSteadyRoom round.now channels.old w }
    requires timely { IsTimely clock channels.old }
    ensures changes { let k = round.now.mark in
        ChangesAll touches.old touches.new (gives k) (takes (taking touches.old k)) place
        (pilfers (taking touches.old k)) }
    ensures outgoing { (s : Scene) (e : Step) → IsRound s e touches.old round.now → AllHoldPointers s channels.old
        → SendsAll outgoing (sent_in covers.now round.now s e) origins.now clock channels.old channels.new }
    ensures spends { (w : ℕ) → mask_has outgoing w ≡ true → SpendsSteady round.now channels.old channels.new w }
    ensures left { (w : ℕ) → 1 ≤ w → mask_has outgoing w ≡ false → IsLeft channels.old channels.new w }
    ensures live { channels.new.live ≡ channels.old.live }
    ensures gone { (c : ℕ) → 1 ≤ c → (channel_of channels.new c).gone ≡ (channel_of channels.old c).gone }
    ensures anrs { channels.new.anrs ≡ channels.old.anrs }
{
    touches.rest();
    send_each(outgoing, clock, origins, round, touches, covers, channels);
    channels.publish(outgoing, clock);
}
