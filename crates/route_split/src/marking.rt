//! How the states of the devices change with a step.
ghost use Rattle.std.specs.Prelude.{◌≡◌, ℕ, ◌-◌, ◌<◌, true, false, not, ◌&&◌, ◌==◌, IfOk, IfSome};
ghost use Rattle.window_snapshot.specs.Mask.{is_channel, mask_has};
ghost use Rattle.routing_rules.specs.Taking.{takes, pilfers};
ghost use Rattle.touch_state.specs.Touches.{Changes, none, nobody, of_mask, of_all, one};
ghost use Rattle.pilfer_monitor.specs.Pilfer.{pilfered};
ghost use Rattle.route_split.specs.Tables.{is_device, table_of, IsTables, IsFresh, ChangesAll};
ghost use Rattle.route_split.specs.Marking.{gives, taking, IsWhole, is_pilfer, AreLostTo, AreLosses};

use crate::mark::Mark;
use input_types::{DeviceId, PointerId};
use pilfer_monitor::{Losses, pilfer};
use std::alloc::{AllocError, Global};
use touch_state::TouchState;
use window_snapshot::{mask_has, mask_with};

/// A state for each device, in which no window holds anything.
pub(crate) fn fresh_states(alloc: Global) -> Result<Vec<TouchState>, AllocError>
    ensures tables { IfOk result (λ v. IsTables v.items) }
    ensures fresh { IfOk result (λ v. (d : ℕ) → IsFresh (table_of v.items d)) }
{
    let mut states = Vec::with_capacity(alloc, 8)?;
    for number in 0..8 {
        match DeviceId::new(number + 1) {
            Some(device) => states.push(TouchState::new(device))?,
            None => unreachable!(),
        }
    }
    Ok(states)
}

/// The index of a device's state.
pub(crate) fn index_of(device: DeviceId) -> usize
    ensures value { result ≡ device - 1 }
    ensures range { result < 8 }
    ensures device { is_device device ≡ true }
{
    usize::from(device.get()) - 1
}

/// Changes the states by a mark. Returns what each window lost, if one that holds something pilfers.
#[inline(always)]
pub(crate) fn change_by(states: &mut [TouchState], mark: &Mark, place: u64) -> Option<Losses>
    requires tables { IsTables states.old }
    requires whole { IsWhole mark.now }
    ensures changes { ChangesAll states.old states.new (gives mark.now) (takes (taking states.old mark.now)) place
        (pilfers (taking states.old mark.now)) }
    ensures losses { IfSome result (AreLosses states.old mark.now) }
{
    match *mark {
        Mark::Pilfer { device, window } => pilfer_of(states, device, window),
        _ => {
            change_plain(states, mark, place);
            None
        }
    }
}

/// The same for a mark in which no window pilfers.
pub(crate) fn change_plain(states: &mut [TouchState], mark: &Mark, place: u64)
    requires tables { IsTables states.old }
    requires whole { IsWhole mark.now }
    requires plain { is_pilfer mark.now ≡ false }
    ensures { ChangesAll states.old states.new (gives mark.now) (takes (taking states.old mark.now)) place
        (pilfers (taking states.old mark.now)) }
{
    match *mark {
        Mark::NoOp => {}
        Mark::Give {
            device,
            id,
            windows,
        } => give(states, device, id, windows, place),
        Mark::Lift { device, id } => lift(states, device, id),
        Mark::Slip {
            device,
            id,
            from,
            to,
        } => slip(states, device, id, from, to, place),
        Mark::Empty { device } => empty(states, device),
        Mark::Pilfer { .. } => unreachable!(),
        Mark::Unnamed { stays } => empty_windows(states, others(stays)),
        Mark::Mute { channels } => empty_windows(states, channels),
        Mark::Forget { window } => empty_windows(states, alone(window)),
    }
}

/// The mask of all other windows.
fn others(windows: u64) -> u64
    ensures { (w : ℕ) → mask_has result w ≡ (is_channel w && not (mask_has windows w)) }
{
    !windows
}

/// The mask of a window alone.
pub(crate) fn alone(window: u32) -> u64
    ensures { (w : ℕ) → mask_has result w ≡ (is_channel w && w == window) }
{
    mask_with(0, window)
}

/// Gives a pointer of a device to windows.
fn give(states: &mut [TouchState], device: DeviceId, id: PointerId, windows: u64, place: u64)
    requires { IsTables states.old }
    ensures { ChangesAll states.old states.new (λ w d i. d == device && of_mask windows id w i)
        (λ w d i. d == device && none w i) place (λ w d. d == device && nobody w) }
{
    states[index_of(device)].down(id, windows, place);
}

/// Takes a pointer of a device from all windows.
fn lift(states: &mut [TouchState], device: DeviceId, id: PointerId)
    requires { IsTables states.old }
    ensures { (place : ℕ)
        → ChangesAll states.old states.new (λ w d i. d == device && none w i)
        (λ w d i. d == device && of_all id w i) place (λ w d. d == device && nobody w) }
{
    states[index_of(device)].up(id);
}

/// Gives a pointer of a device to one window, and takes it from another.
fn slip(states: &mut [TouchState], device: DeviceId, id: PointerId, from: u32, to: u32, place: u64)
    requires tables { IsTables states.old }
    requires from_is { is_channel from ≡ true }
    requires to_is { is_channel to ≡ true }
    ensures { ChangesAll states.old states.new (λ w d i. d == device && one to id w i)
        (λ w d i. d == device && one from id w i) place (λ w d. d == device && nobody w) }
{
    states[index_of(device)].moved(id, from, to, place);
}

/// Takes all pointers of a device from all windows.
fn empty(states: &mut [TouchState], device: DeviceId)
    requires { IsTables states.old }
    ensures { (place : ℕ)
        → ChangesAll states.old states.new (λ w d i. d == device && none w i) (λ w d i. d == device && true) place
        (λ w d. d == device && nobody w) }
{
    states[index_of(device)].reset();
}

/// Takes what a window holds of a device from all other windows. If it holds something, it pilfers the device from
/// then on, and the result is what each window lost.
fn pilfer_of(states: &mut [TouchState], device: DeviceId, window: u32) -> Option<Losses>
    requires tables { IsTables states.old }
    requires channel { is_channel window ≡ true }
    ensures changes { (place : ℕ)
        → ChangesAll states.old states.new (λ w d i. d == device && none w i)
        (λ w d i. d == device && pilfered (table_of states.old device) window w i) place
        (λ w d. d == device && w == window) }
    ensures losses { IfSome result (AreLostTo (table_of states.old device) window) }
{
    pilfer_one(&mut states[index_of(device)], window)
}

/// The same for the state of that device.
fn pilfer_one(state: &mut TouchState, window: u32) -> Option<Losses>
    requires { is_channel window ≡ true }
    ensures changes { (place : ℕ) →
        Changes state.old state.new none (pilfered state.old window) place (λ w. w == window) }
    ensures losses { IfSome result (AreLostTo state.old window) }
{
    if mask_has(state.holders(), window) {
        Some(pilfer(state, window))
    } else {
        None
    }
}

/// Takes everything from these windows.
fn empty_windows(states: &mut [TouchState], emptied: u64)
    requires { IsTables states.old }
    ensures { (place : ℕ)
        → ChangesAll states.old states.new (λ w d i. none w i) (λ w d i. mask_has emptied w) place (λ w d. nobody w) }
{
    for number in 0..8 {
        empty_windows_of(&mut states[number], emptied);
    }
}

/// The same for the state of one device.
fn empty_windows_of(state: &mut TouchState, emptied: u64)
    ensures { (place : ℕ) → Changes state.old state.new none (λ w i. mask_has emptied w) place nobody }
{
    let hit = state.holders() & emptied;
    if hit == 0 {
        return;
    }
    for k in 0..64 {
        empty_window(state, k + 1, mask_has(emptied, k + 1));
    }
}

/// Takes everything from one window, if it must be taken.
fn empty_window(state: &mut TouchState, channel: u32, emptied: bool)
    requires { is_channel channel ≡ true }
    ensures { (place : ℕ) → Changes state.old state.new none (λ w i. w == channel && emptied) place nobody }
{
    let holders = state.holders();
    if emptied && mask_has(holders, channel) {
        let ids = state.held(channel);
        state.lose(channel, ids);
    }
}
