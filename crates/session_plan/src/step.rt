//! The steps of a session.
ghost use Rattle.std.specs.Prelude.{[], ◌≡◌, ◌≤◌, map, length, option_map, IfOk};
ghost use Rattle.std.specs.List.{All};
ghost use Rattle.std.specs.List.Sorted.{IsNonDecreasingBy};
ghost use Rattle.toml.specs.View.{view};
ghost use Rattle.session_plan.specs.Gives.{Gives};
ghost use Rattle.session_plan.specs.Order.{in_order};
ghost use Rattle.session_plan.specs.Reading.{each};
ghost use Rattle.session_plan.specs.Steps.{act_of, channel_at, focus_of, focused_channel, is_act, pilfer_of, step_of, steps_of};
ghost use Rattle.session_plan.specs.Valid.{IsStep};
ghost use Rattle.session_plan.specs.View.{channel_view};

use crate::channel::channel_named;
use crate::display::display_number;
use crate::error::PlanError;
use crate::key::{Place, key_text};
use crate::plan::{Act, ChannelPlan, Step};
use crate::reading::{number_at, number_or, tables_at, text_at};
use crate::window::windows;
use input_types::{DeviceId, Moment};
use std::alloc::{AllocError, Global};
use toml::Value;

/// The latest time, in microseconds.
pub(crate) const MAX_US: i64 = 1_000_000_000_000_000_000;

/// The channel that step k names.
#[tactic(auto, unfolding(crate::specs::Steps::channel_at))]
fn channel(
    alloc: Global,
    channels: &[ChannelPlan],
    k: usize,
    table: &Value,
) -> Result<u32, PlanError>
    requires { length channels.now ≤ 64 }
    ensures { Gives (λ c. c) result (channel_at (map channel_view channels.now) k (view table.now)) }
{
    let name = text_at(alloc, Place::Step(k), "channel", table)?;
    channel_named(alloc, Place::Step(k), "channel", channels, name)
}

/// The channel that is to get the focus, or none.
fn focused_channel(
    alloc: Global,
    channels: &[ChannelPlan],
    k: usize,
    value: Option<&Value>,
) -> Result<Option<u32>, PlanError>
    requires { length channels.now ≤ 64 }
    ensures { Gives
        (λ c. c) result (focused_channel (map channel_view channels.now) k (option_map (λ v. view v.now) value.entry)) }
{
    let Some(value) = value else {
        return Ok(None);
    };
    let Some(name) = value.as_str() else {
        return Err(PlanError::Wrong {
            key: key_text(alloc, Place::Step(k), "channel")?,
        });
    };
    let channel = channel_named(alloc, Place::Step(k), "channel", channels, name)?;
    Ok(Some(channel))
}

/// A step that asks for the focus.
#[tactic(auto, unfolding(crate::specs::Steps::focus_of))]
fn focus(
    alloc: Global,
    channels: &[ChannelPlan],
    displays: usize,
    k: usize,
    table: &Value,
) -> Result<Act, PlanError>
    requires few { length channels.now ≤ 64 }
    requires some_display { 1 ≤ displays }
    requires few_displays { displays ≤ 4 }
    ensures { Gives (λ a. a) result (focus_of (map channel_view channels.now) displays k (view table.now)) }
{
    let display = display_number(alloc, displays, Place::Step(k), table)?;
    let channel = focused_channel(alloc, channels, k, table.get("channel"))?;
    Ok(Act::FocusOn { display, channel })
}

/// A step that takes pointers.
#[tactic(auto, unfolding(crate::specs::Steps::pilfer_of))]
fn pilfer(
    alloc: Global,
    channels: &[ChannelPlan],
    devices: usize,
    k: usize,
    table: &Value,
) -> Result<Act, PlanError>
    requires few { length channels.now ≤ 64 }
    requires few_devices { devices ≤ 8 }
    ensures { Gives (λ a. a) result (pilfer_of (map channel_view channels.now) devices k (view table.now)) }
{
    let channel = channel(alloc, channels, k, table)?;
    let device = number_at(alloc, Place::Step(k), "device", 1, devices as i64, table)?;
    Ok(Act::Pilfer {
        channel,
        device: DeviceId::new(device as u8).unwrap(),
    })
}

/// What step k does.
#[tactic(auto, unfolding(crate::specs::Steps::act_of))]
fn act(
    alloc: Global,
    channels: &[ChannelPlan],
    devices: usize,
    displays: usize,
    k: usize,
    word: &str,
    table: &Value,
) -> Result<Act, PlanError>
    requires few { length channels.now ≤ 64 }
    requires few_devices { devices ≤ 8 }
    requires some_display { 1 ≤ displays }
    requires few_displays { displays ≤ 4 }
    ensures { Gives
        (λ a. a) result (act_of (map channel_view channels.now) devices displays k word.now (view table.now)) }
{
    if word == "windows" {
        let snapshot = windows(alloc, channels, displays, k, table)?;
        Ok(Act::Windows(snapshot))
    } else if word == "focus" {
        focus(alloc, channels, displays, k, table)
    } else if word == "pilfer" {
        pilfer(alloc, channels, devices, k, table)
    } else {
        let channel = channel(alloc, channels, k, table)?;
        Ok(Act::Remove { channel })
    }
}

/// Whether a word says what a step does.
fn is_act(word: &str) -> bool
    ensures { result ≡ is_act word.now }
{
    word == "windows" || (word == "focus" || (word == "pilfer" || word == "remove"))
}

/// Step k.
#[tactic(auto, unfolding(crate::specs::Steps::step_of))]
fn step(
    alloc: Global,
    channels: &[ChannelPlan],
    devices: usize,
    displays: usize,
    k: usize,
    table: &Value,
) -> Result<Step, PlanError>
    requires few { length channels.now ≤ 64 }
    requires few_devices { devices ≤ 8 }
    requires some_display { 1 ≤ displays }
    requires few_displays { displays ≤ 4 }
    ensures value { Gives
        (λ s. s) result (step_of (map channel_view channels.now) devices displays k (view table.now)) }
    ensures valid { IfOk result IsStep }
{
    let place = Place::Step(k);
    let us = number_at(alloc, place, "at_us", 0, MAX_US, table)?;
    let lane = number_or(alloc, 1, place, "lane", 1, 8, table)?;
    let word = text_at(alloc, place, "do", table)?;
    if !is_act(word) {
        return Err(PlanError::Wrong {
            key: key_text(alloc, place, "do")?,
        });
    }
    let act = act(alloc, channels, devices, displays, k, word, table)?;
    Ok(Step {
        at: Moment::new(us).unwrap(),
        lane: lane as u8,
        act,
    })
}

/// The steps that these tables describe.
fn each_step(
    alloc: Global,
    channels: &[ChannelPlan],
    devices: usize,
    displays: usize,
    tables: &[Value],
) -> Result<Vec<Step>, PlanError>
    requires few { length channels.now ≤ 64 }
    requires few_devices { devices ≤ 8 }
    requires some_display { 1 ≤ displays }
    requires few_displays { displays ≤ 4 }
    ensures value { Gives
        (λ v. v.items) result
        (each (λ k found d. step_of (map channel_view channels.now) devices displays k d) 1 [] (map view tables.now)) }
    ensures valid { IfOk result (λ v. All IsStep v.items) }
{
    let mut steps = Vec::new(alloc);
    for (i, table) in tables.iter().enumerate() {
        steps.push(step(alloc, channels, devices, displays, i + 1, table)?)?;
    }
    Ok(steps)
}

/// The steps by their moments.
fn in_order(mut steps: Vec<Step>) -> Result<Vec<Step>, AllocError>
    requires { All IsStep steps.items }
    ensures value { IfOk result (λ v. v.items ≡ in_order steps.items) }
    ensures valid { IfOk result (λ v. All IsStep v.items) }
    ensures rising { IfOk result (λ v. IsNonDecreasingBy (λ s. s.at) v.items) }
{
    steps.sort_by_key(|step| step.at.get())?;
    Ok(steps)
}

/// The steps of a session with this many devices and displays, in the order in which they are made.
#[tactic(auto, unfolding(crate::specs::Steps::steps_of))]
pub(crate) fn steps(
    alloc: Global,
    channels: &[ChannelPlan],
    devices: usize,
    displays: usize,
    document: &Value,
) -> Result<Vec<Step>, PlanError>
    requires few { length channels.now ≤ 64 }
    requires few_devices { devices ≤ 8 }
    requires some_display { 1 ≤ displays }
    requires few_displays { displays ≤ 4 }
    ensures value { Gives
        (λ v. v.items) result (steps_of (map channel_view channels.now) devices displays (view document.now)) }
    ensures valid { IfOk result (λ v. All IsStep v.items) }
    ensures rising { IfOk result (λ v. IsNonDecreasingBy (λ s. s.at) v.items) }
{
    let tables = tables_at(alloc, Place::Document, "step", document)?;
    let steps = each_step(alloc, channels, devices, displays, tables)?;
    let steps = in_order(steps)?;
    Ok(steps)
}
