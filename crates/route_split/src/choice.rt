//! Who gets a pointer that goes down.
ghost use Rattle.std.specs.Prelude.{◌≡◌, ◌&&◌, ◌||◌, ◌==◌, not, true, ℕ, filter, option_copied, option_map};
ghost use Rattle.std.specs.List.{find, list_any};
ghost use Rattle.window_snapshot.specs.Hits.{touched, is_spy_at};
ghost use Rattle.window_snapshot.specs.Occlusion.{is_blocked_at};
ghost use Rattle.window_snapshot.specs.Mask.{is_channel, mask_has};
ghost use Rattle.window_snapshot.specs.MaskOf.{mask_of};
ghost use Rattle.window_snapshot.specs.Window.{is_spy, prevents_splitting};
ghost use Rattle.routing_rules.specs.Choice.{is_holder, earliest, is_alone, choose, choice_at, targets_at, may_take, takers, is_candidate_of};
ghost use Rattle.routing_rules.specs.Scene.{shows, which};
ghost use Rattle.route_split.specs.Seen.{scene_at};

use crate::seen::{Seen, holds_any, is_pilfering};
use input_types::{DeviceId, Pixel};
use routing_rules::{Choice, Row};
use window_snapshot::{Window, mask_has, mask_less, mask_with};

/// The mask of the targets of a pointer of a device that goes down at a place.
pub(crate) fn targets(seen: &Seen, device: DeviceId, at: Pixel) -> u64
    ensures { (w : ℕ) → mask_has result w
        ≡ (is_channel w && list_any (λ v. v == w) (targets_at (scene_at seen.now) device at)) }
{
    let chosen = choice_at(seen, device, at).window;
    let spies = spies(seen, device, at);
    let some = some_pilfering(seen, device, chosen, spies);
    target_mask(seen, device, chosen, spies, some)
}

/// The mask of the windows that get a pointer of a device that goes down at a place: the targets that may be given it.
pub(crate) fn takers(seen: &Seen, device: DeviceId, at: Pixel) -> u64
    ensures { (w : ℕ) → mask_has result w ≡ list_any (λ v. v == w) (takers (scene_at seen.now) device at) }
{
    may_take(seen, device, at, targets(seen, device, at))
}

/// Of the windows of a mask, those that may be given a pointer at a place: they are able to take input, and no window
/// of another owner blocks them there.
fn may_take(seen: &Seen, device: DeviceId, at: Pixel, among: u64) -> u64
    ensures { (w : ℕ) → mask_has result w ≡ (mask_has among w && may_take (scene_at seen.now) device at w) }
{
    let able = among & seen.able;
    mask_less(able, blocked(seen, device, at, able))
}

/// Of the windows of a mask, those that are blocked at a place.
fn blocked(seen: &Seen, device: DeviceId, at: Pixel, among: u64) -> u64
    ensures { let s = scene_at seen.now in (w : ℕ)
        → mask_has result w ≡ (mask_has among w && is_blocked_at s.windows (s.reach device) at.x at.y w) }
{
    seen.windows.blocked(at.x, at.y, seen.reach, among)
}

/// The mask of the spies at a place.
fn spies(seen: &Seen, device: DeviceId, at: Pixel) -> u64
    ensures { let s = scene_at seen.now in (c : ℕ)
        → mask_has result c ≡ is_spy_at s.windows (s.reach device) at.x at.y c }
{
    seen.windows.spies(at.x, at.y, seen.reach)
}

/// The mask of the windows without SPY.
fn plain_windows(seen: &Seen) -> u64
    ensures { result ≡ mask_of (filter (λ v. not (is_spy v)) seen.now.windows.now) }
{
    seen.windows
        .windows()
        .iter()
        .filter(|window| !window.is_spy())
        .fold(0, |mask, window| mask_with(mask, window.channel))
}

/// Whether a window is not a spy and prevents splitting.
fn is_whole(window: &Window) -> bool
    ensures { result ≡ (not (is_spy window.now) && prevents_splitting window.now) }
{
    !window.is_spy() && window.prevents_splitting()
}

/// The mask of those that also prevent splitting.
fn whole_windows(seen: &Seen) -> u64
    ensures { result
        ≡ mask_of (filter (λ v. not (is_spy v) && prevents_splitting v) seen.now.windows.now) }
{
    seen.windows
        .windows()
        .iter()
        .filter(|window| is_whole(window))
        .fold(0, |mask, window| mask_with(mask, window.channel))
}

/// Whether a window is not a spy, and is in a mask.
fn is_plain_in(mask: u64, window: &Window) -> bool
    ensures { result ≡ (not (is_spy window.now) && mask_has mask window.now.channel) }
{
    !window.is_spy() && mask_has(mask, window.channel)
}

/// Whether it also prevents splitting.
fn is_whole_in(mask: u64, window: &Window) -> bool
    ensures { result ≡ (not (is_spy window.now) && prevents_splitting window.now && mask_has mask window.now.channel) }
{
    is_whole(window) && mask_has(mask, window.channel)
}

/// The front one of the windows without SPY in a mask.
fn front_plain<'a>(windows: &'a [Window], mask: u64) -> Option<&'a Window>
    ensures { option_copied result ≡ find (λ v. not (is_spy v) && mask_has mask v.channel) windows.now }
{
    windows.iter().find(|window| is_plain_in(mask, window))
}

/// The front one of those that also prevent splitting.
fn front_whole<'a>(windows: &'a [Window], mask: u64) -> Option<&'a Window>
    ensures { option_copied result
        ≡ find (λ v. not (is_spy v) && prevents_splitting v && mask_has mask v.channel) windows.now }
{
    windows.iter().find(|window| is_whole_in(mask, window))
}

/// The channel of a window.
fn channel_of(window: Option<&Window>) -> Option<u32>
    ensures { result ≡ option_map (λ v. v.channel) (option_copied window.entry) }
{
    match window {
        Some(window) => Some(window.channel),
        None => None,
    }
}

/// The earliest holder.
fn earliest_holder(seen: &Seen, device: DeviceId) -> Option<u32>
    ensures { let s = scene_at seen.now in result ≡ earliest s device (which s (is_holder s device)) }
{
    let earliest = seen.table.earliest(plain_windows(seen));
    channel_of(front_plain(seen.windows.windows(), earliest))
}

/// The earliest holder that prevents splitting.
fn earliest_whole_holder(seen: &Seen, device: DeviceId) -> Option<u32>
    ensures { let s = scene_at seen.now in result
        ≡ earliest s device (which s (λ v. is_holder s device v && prevents_splitting v)) }
{
    let earliest = seen.table.earliest(whole_windows(seen));
    channel_of(front_whole(seen.windows.windows(), earliest))
}

/// Whether the channel's window prevents splitting.
fn shows_whole(seen: &Seen, channel: u32) -> bool
    ensures { result ≡ shows (scene_at seen.now) prevents_splitting channel }
{
    seen.windows.windows().iter().any(|window| window.channel == channel
        && window.prevents_splitting())
}

/// Whether the touched window prevents splitting and holds nothing.
fn is_alone(seen: &Seen, device: DeviceId, touched: Option<u32>) -> bool
    ensures { result ≡ is_alone (scene_at seen.now) device touched }
{
    match touched {
        Some(channel) => shows_whole(seen, channel) && !holds_any(seen.table, channel),
        None => false,
    }
}

/// Whether the window of a channel may be given a pointer at a place.
pub(crate) fn may_take_one(seen: &Seen, device: DeviceId, at: Pixel, channel: u32) -> bool
    ensures value { result ≡ may_take (scene_at seen.now) device at channel }
    ensures channel { result ≡ true → is_channel channel ≡ true }
{
    mask_has(may_take(seen, device, at, mask_with(0, channel)), channel)
}

/// The choice, as a table.
fn choose(first: Option<u32>, whole: Option<u32>, touched: Option<u32>, alone: bool) -> Choice
    ensures { result ≡ choose first whole touched alone }
{
    let (window, row) = match (first, whole, touched) {
        (None, _, _) => (touched, Row::First),
        (Some(_), Some(holder), _) => (Some(holder), Row::Unsplit),
        (Some(holder), None, None) => (Some(holder), Row::Nothing),
        (Some(holder), None, Some(channel)) => {
            if alone {
                (Some(holder), Row::Whole)
            } else {
                (Some(channel), Row::Split)
            }
        }
    };
    Choice { window, row }
}

/// The chosen window, and the row that chose it.
pub(crate) fn choice_at(seen: &Seen, device: DeviceId, at: Pixel) -> Choice
    ensures { result ≡ choice_at (scene_at seen.now) device at }
{
    let first = earliest_holder(seen, device);
    let whole = earliest_whole_holder(seen, device);
    let touched = seen.windows.touched(at.x, at.y, seen.reach);
    choose(first, whole, touched, is_alone(seen, device, touched))
}

/// Whether the window is the chosen one or one of these spies.
fn is_candidate(chosen: Option<u32>, spies: u64, channel: u32) -> bool
    ensures { result ≡ is_candidate_of chosen (mask_has spies) channel }
{
    match chosen {
        Some(window) => channel == window || mask_has(spies, channel),
        None => mask_has(spies, channel),
    }
}

/// Whether some candidate is pilfering.
fn some_pilfering(seen: &Seen, device: DeviceId, chosen: Option<u32>, spies: u64) -> bool
    ensures { let s = scene_at seen.now in result
        ≡ list_any (λ v. is_candidate_of chosen (mask_has spies) v.channel && s.pilfering v.channel device) s.windows }
{
    seen.windows.windows().iter().any(|window| is_candidate(chosen, spies, window.channel)
        && is_pilfering(seen.table, window.channel))
}

/// Whether the window is a target.
fn is_target(
    seen: &Seen,
    device: DeviceId,
    chosen: Option<u32>,
    spies: u64,
    some_pilfering: bool,
    channel: u32,
) -> bool
    ensures { let s = scene_at seen.now in result
        ≡ (is_candidate_of chosen (mask_has spies) channel && (s.pilfering channel device || not some_pilfering)) }
{
    is_candidate(chosen, spies, channel) && (is_pilfering(seen.table, channel) || !some_pilfering)
}

/// The mask of those that are.
fn target_mask(
    seen: &Seen,
    device: DeviceId,
    chosen: Option<u32>,
    spies: u64,
    some_pilfering: bool,
) -> u64
    ensures { let s = scene_at seen.now in result
        ≡ mask_of (filter
        (λ v. is_candidate_of chosen (mask_has spies) v.channel
        && (s.pilfering v.channel device || not some_pilfering)) s.windows) }
{
    seen.windows
        .windows()
        .iter()
        .filter(|window| is_target(seen, device, chosen, spies, some_pilfering, window.channel))
        .fold(0, |mask, window| mask_with(mask, window.channel))
}
