//! Who gets a pointer that goes down.
ghost use Rattle.std.specs.Prelude.{◌≡◌, ◌&&◌, ◌||◌, not, ℕ};
ghost use Rattle.std.specs.List.{list_any};
ghost use Rattle.routing_rules.specs.Choice.{is_holder, sooner, earliest, is_alone, choose, choice_at, is_candidate_of, may_take};
ghost use Rattle.routing_rules.specs.Scene.{shows, which};
ghost use Rattle.window_snapshot.specs.Mask.{mask_has};
ghost use Rattle.window_snapshot.specs.Window.{prevents_splitting};
ghost use Rattle.window_snapshot.specs.Hits.{touched};
ghost use Rattle.window_snapshot.specs.Occlusion.{is_blocked_at};
ghost use Rattle.window_snapshot.specs.Walls.{reaches};
ghost use Rattle.route_plain.specs.Seen.{scene_at};

use crate::hold::{holds_any, is_earlier, is_pilfering};
use crate::seen::{Seen, reach_of};
use input_types::{DeviceId, Pixel};
use routing_rules::{Choice, Row};
use window_snapshot::{Reach, Window, mask_has, mask_less};

/// Whether the window is not a spy and holds something of the device.
fn is_holder(seen: &Seen, device: DeviceId, window: &Window) -> bool
    ensures { result ≡ is_holder (scene_at seen.now) device window.now }
{
    !window.is_spy() && holds_any(seen.holds, window.channel, device)
}

/// Whether it also prevents splitting.
fn is_whole_holder(seen: &Seen, device: DeviceId, window: &Window) -> bool
    ensures { result ≡ (is_holder (scene_at seen.now) device window.now && prevents_splitting window.now) }
{
    is_holder(seen, device, window) && window.prevents_splitting()
}

/// Of the best window so far and one further back, the one that began first.
fn sooner(seen: &Seen, device: DeviceId, best: Option<u32>, channel: u32) -> Option<u32>
    ensures { result ≡ sooner (scene_at seen.now) device best channel }
{
    match best {
        Some(first) => {
            if is_earlier(seen.holds, channel, first, device) {
                Some(channel)
            } else {
                Some(first)
            }
        }
        None => Some(channel),
    }
}

/// The earliest holder.
fn earliest_holder(seen: &Seen, device: DeviceId) -> Option<u32>
    ensures { let s = scene_at seen.now in result ≡ earliest s device (which s (is_holder s device)) }
{
    seen.snapshot
        .windows()
        .iter()
        .filter(|window| is_holder(seen, device, window))
        .map(|window| window.channel)
        .fold(None, |best, channel| sooner(seen, device, best, channel))
}

/// The earliest holder that prevents splitting.
fn earliest_whole_holder(seen: &Seen, device: DeviceId) -> Option<u32>
    ensures { let s = scene_at seen.now in result
        ≡ earliest s device (which s (λ v. is_holder s device v && prevents_splitting v)) }
{
    seen.snapshot
        .windows()
        .iter()
        .filter(|window| is_whole_holder(seen, device, window))
        .map(|window| window.channel)
        .fold(None, |best, channel| sooner(seen, device, best, channel))
}

/// Whether the channel's window prevents splitting.
fn shows_whole(seen: &Seen, channel: u32) -> bool
    ensures { result ≡ shows (scene_at seen.now) prevents_splitting channel }
{
    seen.snapshot.windows().iter().any(|window| window.channel == channel
        && window.prevents_splitting())
}

/// Whether the touched window prevents splitting and holds nothing of the device.
fn is_alone(seen: &Seen, device: DeviceId, touched: Option<u32>) -> bool
    ensures { result ≡ is_alone (scene_at seen.now) device touched }
{
    match touched {
        Some(channel) => shows_whole(seen, channel) && !holds_any(seen.holds, channel, device),
        None => false,
    }
}

/// The choice, as a table.
fn choose(first: Option<u32>, whole: Option<u32>, touched: Option<u32>, alone: bool) -> Choice
    ensures { result ≡ choose first whole touched alone }
{
    let (window, row) = match (first, whole, touched) {
        (None, _, _) => (touched, Row::First),
        (Some(_), Some(holder), _) => (Some(holder), Row::Unsplit),
        (Some(holder), None, None) => (Some(holder), Row::Nothing),
        (Some(holder), None, Some(channel)) => {
            if alone {
                (Some(holder), Row::Whole)
            } else {
                (Some(channel), Row::Split)
            }
        }
    };
    Choice { window, row }
}

/// The window that is chosen for a pointer that goes down there, and the row that chose it.
pub(crate) fn choice_at(seen: &Seen, device: DeviceId, at: Pixel) -> Choice
    ensures { result ≡ choice_at (scene_at seen.now) device at }
{
    let first = earliest_holder(seen, device);
    let whole = earliest_whole_holder(seen, device);
    let touched = seen.snapshot.touched(at.x, at.y, &reach_of(seen));
    choose(first, whole, touched, is_alone(seen, device, touched))
}

/// Whether the window is the chosen one or one of these spies.
fn is_candidate(chosen: Option<u32>, spies: u64, channel: u32) -> bool
    ensures { result ≡ is_candidate_of chosen (mask_has spies) channel }
{
    match chosen {
        Some(window) => channel == window || mask_has(spies, channel),
        None => mask_has(spies, channel),
    }
}

/// Whether a candidate is pilfering the device.
fn is_pilfering_candidate(
    seen: &Seen,
    device: DeviceId,
    chosen: Option<u32>,
    spies: u64,
    channel: u32,
) -> bool
    ensures { result
        ≡ (is_candidate_of chosen (mask_has spies) channel && (scene_at seen.now).pilfering channel device) }
{
    is_candidate(chosen, spies, channel) && is_pilfering(seen.pilferers, channel, device)
}

/// Whether some candidate is.
pub(crate) fn some_pilfering(seen: &Seen, device: DeviceId, chosen: Option<u32>, spies: u64) -> bool
    ensures { let s = scene_at seen.now in result
        ≡ list_any (λ v. is_candidate_of chosen (mask_has spies) v.channel && s.pilfering v.channel device) s.windows }
{
    seen.snapshot.windows().iter().any(|window| is_pilfering_candidate(
        seen,
        device,
        chosen,
        spies,
        window.channel,
    ))
}

/// Whether the window gets a pointer that goes down.
pub(crate) fn is_taker(
    seen: &Seen,
    device: DeviceId,
    chosen: Option<u32>,
    spies: u64,
    some_pilfering: bool,
    at: Pixel,
    channel: u32,
) -> bool
    ensures { let s = scene_at seen.now in result
        ≡ (is_candidate_of chosen (mask_has spies) channel && (s.pilfering channel device || not some_pilfering)
        && may_take s device at channel) }
{
    is_candidate(chosen, spies, channel)
        && (is_pilfering(seen.pilferers, channel, device) || !some_pilfering)
        && may_take(seen, device, at, channel)
}

/// Whether a window may be given a pointer at a place: it is able to take input, and no window of another owner blocks
/// it there.
pub(crate) fn may_take(seen: &Seen, device: DeviceId, at: Pixel, channel: u32) -> bool
    ensures { result ≡ may_take (scene_at seen.now) device at channel }
{
    let blocked = blocked(seen, device, at);
    mask_has(mask_less(seen.able, blocked), channel)
}

/// The mask of the windows that are able to take input but blocked at a place.
fn blocked(seen: &Seen, device: DeviceId, at: Pixel) -> u64
    ensures { let s = scene_at seen.now in (w : ℕ)
        → mask_has result w ≡ (mask_has seen.now.able w && is_blocked_at s.windows (s.reach device) at.x at.y w) }
{
    blocked_in(seen, &reach_of(seen), at)
}

/// The mask of the windows that are able to take input but blocked at a place by one of those that a motion reaches.
fn blocked_in(seen: &Seen, reach: &Reach, at: Pixel) -> u64
    ensures { (w : ℕ) → mask_has result w
        ≡ (mask_has seen.now.able w && is_blocked_at seen.now.snapshot.now (reaches reach.now) at.x at.y w) }
{
    seen.snapshot.blocked(at.x, at.y, reach, seen.able)
}
