//! A spy that pilfers.
ghost use Rattle.std.specs.Prelude.{◌≡◌, ℕ, ◌<◌, true, not, ◌&&◌, ◌||◌, ◌==◌};
ghost use Rattle.bits32.specs.Set.{is_in};
ghost use Rattle.window_snapshot.specs.Mask.{is_channel};
ghost use Rattle.touch_state.specs.Touches.{holds, any, Changes, none, nobody};
ghost use Rattle.pilfer_monitor.specs.Pilfer.{pilfered, set_of};

use crate::losses::Losses;
use bits32::Bits32;
use touch_state::TouchState;
use window_snapshot::mask_has;

/// The window of a channel, which holds something, takes what it holds from all other windows, and is pilfering from
/// then on. Returns what each window held and lost.
pub fn pilfer(state: &mut TouchState, channel: u32) -> Losses
    requires channel { is_channel channel ≡ true }
    requires holds { any state.old channel ≡ true }
    ensures state { (place : ℕ) →
        Changes state.old state.new none (pilfered state.old channel) place (λ w. w == channel) }
    ensures losses { (w i : ℕ) → is_in i (set_of result w) ≡ (holds state.old w i && pilfered state.old channel w i) }
{
    let ids = state.held(channel);
    state.start_pilfer(channel);
    let mut lost = [Bits32::empty(); 64];
    for k in 0..64 {
        lost[k as usize] = remove(state, k + 1, channel, ids);
    }
    Losses::new(lost)
}

/// Removes these ids from a window, unless it is the spy, and returns those that it held.
fn remove(state: &mut TouchState, channel: u32, spy: u32, ids: Bits32) -> Bits32
    requires { is_channel channel ≡ true }
    ensures state { (place : ℕ) →
        Changes state.old state.new none (λ w i. w == channel && (not (w == spy) && is_in i ids)) place nobody }
    ensures lost { (i : ℕ) → is_in i result ≡ (holds state.old channel i && (not (channel == spy) && is_in i ids)) }
{
    let holders = state.holders();
    if channel == spy {
        return Bits32::empty();
    }
    if !mask_has(holders, channel) {
        return Bits32::empty();
    }
    let lost = common(state.held(channel), ids);
    state.lose(channel, ids);
    lost
}

/// The ids of both sets.
fn common(a: Bits32, b: Bits32) -> Bits32
    ensures { (i : ℕ) → is_in i result ≡ (is_in i a && is_in i b) }
{
    let mut both = Bits32::empty();
    for id in 0..32 {
        both = with_common(both, a, b, id);
    }
    both
}

/// The set, with a number added if both sets contain it.
fn with_common(set: Bits32, a: Bits32, b: Bits32, id: u8) -> Bits32
    requires { id < 32 }
    ensures { (i : ℕ) → is_in i result ≡ (is_in i set || (i == id && (is_in i a && is_in i b))) }
{
    let mut more = set;
    if a.has(id) && b.has(id) {
        more.mark(id);
    }
    more
}
