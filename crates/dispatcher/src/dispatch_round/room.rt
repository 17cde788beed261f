//! Room for what a step sends.
ghost use Rattle.std.specs.Prelude.{◌≡◌, ◌≤◌, ◌<◌, ◌^◌, ℕ, true, false, length, max, OnOk, OnErr, IfOk, IsOk};
ghost use Rattle.dispatcher.specs.KeyTables.Focused.{change_sent};
ghost use Rattle.std.specs.Option.{option_copied};
ghost use Rattle.routing_rules.specs.Outgoing.{devices};
ghost use Rattle.dispatcher.specs.DispatchChannels.Table.{IsOpened, input_of, with_room, but_for_room, NoLessRoom};
ghost use Rattle.dispatcher.specs.DispatchRound.Bodies.{keys_to};
ghost use Rattle.window_snapshot.specs.Mask.{mask_has};
ghost use Rattle.dispatcher.specs.DispatchRound.Rounds.{most_sent, IsFew, HasMostRoom};
ghost use Rattle.dispatcher.specs.DispatchRound.Rounds.{count_of, most_motions, most_bodies, is_concerned, HasRoom, IsReady, AreListeners, MakesRoom};

use crate::cancel_synthesis::InputState;
use crate::dispatch_channels::{Channels, first_of, without};
use crate::dispatch_round::concern::listeners;
use crate::dispatch_round::devices::device_at;
use crate::dispatch_round::round::Round;
use crate::key_tables::focus_change;
use input_types::KeyMsg;
use route_split::Touches;
use std::alloc::AllocError;

/// How many pointers a window has.
fn count_all(input: &InputState) -> usize
    ensures value { result ≡ count_of input.now devices }
    ensures few { result ≤ 128 }
{
    let mut count = 0usize;
    'devices: for place in 0..8u8 {
        count += input.pointers(device_at(place)).len();
    }
    count
}

/// The number, and at least 1.
fn at_least_one(count: usize) -> usize
    ensures { result ≡ max 1 count }
{
    if count == 0 { 1 } else { count }
}

/// The most motions that it is sent in a round.
fn most_motions(round: &Round, input: &InputState) -> usize
    ensures value { result ≡ most_motions (option_copied round.now.motion) input.now }
    ensures few { result ≤ 128 }
{
    match round.motion {
        Some(motion) => at_least_one(input.pointers(motion.device).len()),
        None => count_all(input),
    }
}

/// The key messages that a window is sent, if the target is sent these.
pub(crate) fn keys_to(keys: &[KeyMsg], target: u32, window: u32) -> &[KeyMsg]
    ensures { result.now ≡ keys_to target keys.now window }
{
    if window == target { keys } else { &[] }
}

/// How many bodies a change of the focus sends.
fn count_of(change: Option<bool>) -> usize
    ensures value { result ≡ length (change_sent change) }
    ensures few { result ≤ 1 }
{
    match change {
        Some(_) => 1,
        None => 0,
    }
}

/// The most bodies that a window is sent. If there is no memory for so many messages, none.
fn most_bodies(round: &Round, channels: &Channels, window: u32) -> Result<u32, AllocError>
    requires { IsOpened channels.now window }
    ensures value { IfOk result (λ n. n ≡ most_bodies round.now window (input_of channels.now window)) }
    ensures most { IfOk result (λ n. n ≤ most_sent round.now window) }
    ensures fits { length round.now.keys.now < 2 ^ 31 → IsOk result }
{
    let motions = most_motions(round, channels.input(window));
    let keys = keys_to(round.keys, round.target, window).len();
    let change = count_of(focus_change(round.lost, round.gained, window));
    match u32::try_from(motions + keys + change) {
        Ok(count) => Ok(count),
        Err(_) => Err(AllocError),
    }
}

/// Makes room for what a step sends a window.
fn make_room_in(round: &Round, channels: &mut Channels, window: u32) -> Result<(), AllocError>
    requires { IsOpened channels.old window }
    ensures ok { let most = most_bodies round.now window (input_of channels.old window) in
        OnOk result (channels.new ≡ with_room window most channels.old) }
    ensures err { OnErr result (but_for_room channels.new ≡ but_for_room channels.old) }
    ensures room { NoLessRoom channels.old channels.new }
    ensures most { OnOk result (IsFew round.now channels.old window) }
    ensures roomy { length round.now.keys.now < 2 ^ 31 → HasMostRoom round.now channels.old window → IsOk result }
    ensures reserved { length round.now.keys.now < 2 ^ 31 → HasRoom round.now channels.old window → IsOk result }
{
    let count = most_bodies(round, channels, window)?;
    channels.reserve(window, count)
}

/// Makes room for everything that a step sends the live windows, so that [`send_all`](crate::dispatch_round::send_all)
/// takes no memory, and returns their mask: no other window is sent anything. Nothing changes but the room of channels,
/// with or without memory. If they have enough already, no memory is taken.
pub fn make_room(
    round: &Round,
    touches: &Touches,
    channels: &mut Channels,
) -> Result<u64, AllocError>
    ensures made { OnOk result (MakesRoom touches.now round.now channels.old channels.new) }
    ensures ready { OnOk result (IsReady touches.now round.now channels.new) }
    ensures outgoing { IfOk result (λ outgoing. AreListeners outgoing touches.now round.now channels.new) }
    ensures same { but_for_room channels.new ≡ but_for_room channels.old }
    ensures room { NoLessRoom channels.old channels.new }
    ensures few { IfOk result (λ outgoing. (w : ℕ) → mask_has outgoing w ≡ true → IsFew round.now channels.new w) }
    ensures roomy { length round.now.keys.now < 2 ^ 31 → ((w : ℕ) → mask_has channels.old.live w ≡ true
        → is_concerned touches.now round.now w ≡ true → HasMostRoom round.now channels.old w) → IsOk result }
    ensures reserved { length round.now.keys.now < 2 ^ 31 →
        IsReady touches.now round.now channels.old → IsOk result }
    ensures calm { ((w : ℕ) → is_concerned touches.now round.now w ≡ false) → IsOk result }
{
    // Its clauses say that what each window was sent stays as it was.
    let _opened = channels.opened();
    let outgoing = listeners(round, touches, channels);
    let mut rest = outgoing;
    while rest != 0 {
        let window = first_of(rest);
        make_room_in(round, channels, window)?;
        rest = without(rest, window);
    }
    Ok(outgoing)
}
