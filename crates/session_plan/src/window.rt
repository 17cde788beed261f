//! The windows of a step.
ghost use Rattle.std.specs.Prelude.{[], ◌≡◌, ◌≤◌, ◌&&◌, false, map, length, MatchResult, IfOk, IfSome};
ghost use Rattle.toml.specs.View.{view};
ghost use Rattle.window_snapshot.specs.Mask.{is_channel};
ghost use Rattle.window_snapshot.specs.Named.{is_named};
ghost use Rattle.window_snapshot.specs.WindowList.{first_twice};
ghost use Rattle.session_plan.specs.declared.error.PlanError.TheVariants.{Memory};
ghost use Rattle.session_plan.specs.declared.key.Place.TheVariants.{Window as WindowPlace};
ghost use Rattle.session_plan.specs.Gives.{Gives};
ghost use Rattle.session_plan.specs.Reading.{each};
ghost use Rattle.session_plan.specs.View.{channel_view};
ghost use Rattle.session_plan.specs.Windows.{new_channel, no_channel, wall_at, window_channel, window_of, windows_of};

use crate::channel::channel_named;
use crate::display::display_number;
use crate::error::PlanError;
use crate::flags::flags;
use crate::key::{Place, key_text};
use crate::plan::ChannelPlan;
use crate::reading::{at_most, number_or, required, tables, text_at};
use crate::rectangle::{rect, region};
use crate::trust::{occlusion, percent};
use std::alloc::Global;
use toml::Value;
use window_snapshot::{MAX_WINDOWS, Snapshot, SnapshotError, Window, wall_on};

/// Whether a window of the channel is there.
fn is_named(windows: &[Window], channel: u32) -> bool
    ensures { result ≡ is_named windows.now channel }
{
    windows.iter().any(|window| window.channel == channel)
}

/// Whether the window of a table is a wall, which is of nobody; it is none if the table does not say so.
#[tactic(auto, unfolding(crate::specs::Windows::wall_at))]
fn wall(alloc: Global, place: Place, table: &Value) -> Result<bool, PlanError>
    ensures { Gives (λ b. b) result (wall_at place (view table.now)) }
{
    let Some(value) = table.get("wall") else {
        return Ok(false);
    };
    match value.as_bool() {
        Some(wall) => Ok(wall),
        None => Err(PlanError::Wrong {
            key: key_text(alloc, place, "wall")?,
        }),
    }
}

/// Checks that the table of a wall names no channel.
#[tactic(auto, unfolding(crate::specs::Windows::no_channel))]
fn no_channel(alloc: Global, place: Place, table: &Value) -> Result<Option<u32>, PlanError>
    ensures value { Gives (λ c. c) result (no_channel place (view table.now)) }
    ensures none { IfOk result (λ c. c ≡ None) }
{
    if table.get("channel").is_some() {
        return Err(PlanError::Wrong {
            key: key_text(alloc, place, "channel")?,
        });
    }
    Ok(None)
}

/// The channel of the window of a table, which none of the windows that were read has.
#[tactic(auto, unfolding(crate::specs::Windows::new_channel))]
fn new_channel(
    alloc: Global,
    channels: &[ChannelPlan],
    place: Place,
    found: &[Window],
    table: &Value,
) -> Result<Option<u32>, PlanError>
    requires { length channels.now ≤ 64 }
    ensures value { Gives
        (λ c. c) result (new_channel (map channel_view channels.now) place found.now (view table.now)) }
    ensures new { IfOk result (λ c. IfSome c (λ n. is_named found.now n ≡ false)) }
{
    let name = text_at(alloc, place, "channel", table)?;
    let channel = channel_named(alloc, place, "channel", channels, name)?;
    if is_named(found, channel) {
        return Err(PlanError::Wrong {
            key: key_text(alloc, place, "channel")?,
        });
    }
    Ok(Some(channel))
}

/// The channel of the window of a table; a wall has none.
fn window_channel(
    alloc: Global,
    channels: &[ChannelPlan],
    place: Place,
    found: &[Window],
    wall: bool,
    table: &Value,
) -> Result<Option<u32>, PlanError>
    requires { length channels.now ≤ 64 }
    ensures value { Gives
        (λ c. c) result (window_channel (map channel_view channels.now) place found.now wall (view table.now)) }
    ensures new { IfOk result (λ c. IfSome c (λ n. is_named found.now n ≡ false)) }
{
    if wall {
        no_channel(alloc, place, table)
    } else {
        new_channel(alloc, channels, place, found, table)
    }
}

/// Reads the window of a table in a session with this many displays, and appends it to those that were read.
#[tactic(auto, unfolding(crate::specs::Windows::window_of))]
fn window(
    alloc: Global,
    channels: &[ChannelPlan],
    displays: usize,
    place: Place,
    found: &[Window],
    table: &Value,
) -> Result<Window, PlanError>
    requires few { length channels.now ≤ 64 }
    requires some_display { 1 ≤ displays }
    requires few_displays { displays ≤ 4 }
    ensures value { Gives
        (λ w. w) result (window_of (map channel_view channels.now) displays place found.now (view table.now)) }
    ensures new { IfOk result (λ w. (is_channel w.channel && is_named found.now w.channel) ≡ false) }
{
    let wall = wall(alloc, place, table)?;
    let channel = window_channel(alloc, channels, place, found, wall, table)?;
    let display = display_number(alloc, displays, place, table)?;
    let frame = required(alloc, place, "frame", table)?;
    let frame = rect(alloc, place, "frame", frame)?;
    let region = region(alloc, place, frame, table)?;
    let flags = flags(alloc, place, wall, table)?;
    let owner = number_or(alloc, 0, place, "owner", 0, 4_294_967_295, table)?;
    let opacity = number_or(alloc, 100, place, "opacity", 0, 100, table)?;
    let occlusion = occlusion(alloc, place, table)?;
    Ok(Window {
        channel: channel.unwrap_or(wall_on(display)),
        display,
        frame,
        region,
        flags,
        owner: owner as u32,
        opacity: percent(opacity),
        occlusion,
    })
}

/// The windows of step k that these tables describe.
fn each_window(
    alloc: Global,
    channels: &[ChannelPlan],
    displays: usize,
    k: usize,
    tables: &[Value],
) -> Result<Vec<Window>, PlanError>
    requires few { length channels.now ≤ 64 }
    requires some_display { 1 ≤ displays }
    requires few_displays { displays ≤ 4 }
    ensures value { Gives
        (λ v. v.items) result
        (each (λ j found d. window_of (map channel_view channels.now) displays (WindowPlace k j) found d) 1 []
        (map view tables.now)) }
    ensures len { IfOk result (λ v. length v.items ≡ length tables.now) }
    ensures distinct { IfOk result (λ v. first_twice v.items ≡ None) }
{
    let mut windows = Vec::new(alloc);
    for (i, table) in tables.iter().enumerate() {
        windows.push(window(
            alloc,
            channels,
            displays,
            Place::Window(k, i + 1),
            &windows,
            table,
        )?)?;
    }
    Ok(windows)
}

/// The snapshot of these windows.
fn snapshot_of(windows: Vec<Window>) -> Result<Snapshot, PlanError>
    requires few { length windows.items ≤ 64 }
    requires distinct { first_twice windows.items ≡ None }
    ensures { MatchResult result (λ s. s ≡ windows.items) (λ e. e ≡ Memory) }
{
    match Snapshot::new(windows) {
        Ok(snapshot) => Ok(snapshot),
        Err(SnapshotError::Memory) => Err(PlanError::Memory),
        Err(_) => unreachable!(),
    }
}

/// The windows of step k, front to back, in a session with this many displays.
#[tactic(auto, unfolding(crate::specs::Windows::windows_of))]
pub(crate) fn windows(
    alloc: Global,
    channels: &[ChannelPlan],
    displays: usize,
    k: usize,
    table: &Value,
) -> Result<Snapshot, PlanError>
    requires few { length channels.now ≤ 64 }
    requires some_display { 1 ≤ displays }
    requires few_displays { displays ≤ 4 }
    ensures { Gives (λ s. s) result (windows_of (map channel_view channels.now) displays k (view table.now)) }
{
    let place = Place::Step(k);
    let value = required(alloc, place, "windows", table)?;
    let tables = tables(alloc, place, "windows", value)?;
    at_most(alloc, place, "windows", MAX_WINDOWS, tables)?;
    let windows = each_window(alloc, channels, displays, k, tables)?;
    snapshot_of(windows)
}
