//! The channels of a session.
ghost use Rattle.std.specs.Prelude.{[], ◌≡◌, ◌≤◌, ◌&&◌, nat_le, map, length, IfOk};
ghost use Rattle.std.specs.List.{All, list_all};
ghost use Rattle.toml.specs.View.{view};
ghost use Rattle.session_plan.specs.Channels.{channel_named, channel_of, channels_of, finishes_at, is_name, is_new, named_from};
ghost use Rattle.session_plan.specs.Gives.{Gives};
ghost use Rattle.session_plan.specs.Keys.{key_of};
ghost use Rattle.session_plan.specs.Reading.{each};
ghost use Rattle.session_plan.specs.Valid.{IsChannel};
ghost use Rattle.session_plan.specs.View.{channel_view};

use crate::error::PlanError;
use crate::key::{Place, key_text};
use crate::plan::ChannelPlan;
use crate::reading::{at_most, number_or, tables_at, text_at};
use input_types::Limit;
use std::alloc::Global;
use toml::Value;

/// The most channels of a session.
const MAX_CHANNELS: usize = 64;

/// Whether all bytes are from `!` to `~`.
fn is_printable(bytes: &[u8]) -> bool
    ensures { result ≡ list_all (λ c. nat_le 33 c && nat_le c 126) bytes.now }
{
    bytes.iter().all(|c| b'!' <= *c && *c <= b'~')
}

/// Whether a text is a name of a channel.
fn is_name(name: &str) -> bool
    ensures { result ≡ is_name name.now }
{
    let bytes = name.as_bytes();
    0 < bytes.len() && bytes.len() <= 64 && is_printable(bytes)
}

/// Whether no channel has the name.
fn is_new(channels: &[ChannelPlan], name: &str) -> bool
    ensures { result ≡ is_new (map channel_view channels.now) name.now }
{
    for channel in channels {
        if channel.name.as_str() == name {
            return false;
        }
    }
    true
}

/// The number of the channel with a name.
fn number_of(channels: &[ChannelPlan], name: &str) -> Option<u32>
    requires { length channels.now ≤ 64 }
    ensures { result ≡ named_from 1 (map channel_view channels.now) name.now }
{
    for (i, channel) in channels.iter().enumerate() {
        if channel.name.as_str() == name {
            return Some(i as u32 + 1);
        }
    }
    None
}

/// The number of the channel whose name stands at a key.
pub(crate) fn channel_named(
    alloc: Global,
    place: Place,
    key: &str,
    channels: &[ChannelPlan],
    name: &str,
) -> Result<u32, PlanError>
    requires { length channels.now ≤ 64 }
    ensures { Gives (λ n. n) result (channel_named (key_of place key.now) (map channel_view channels.now) name.now) }
{
    match number_of(channels, name) {
        Some(number) => Ok(number),
        None => Err(PlanError::UnknownName {
            key: key_text(alloc, place, key)?,
        }),
    }
}

/// Whether a channel finishes messages.
#[tactic(auto, unfolding(crate::specs::Channels::finishes_at))]
fn finishes(alloc: Global, place: Place, table: &Value) -> Result<bool, PlanError>
    ensures { Gives (λ b. b) result (finishes_at place (view table.now)) }
{
    let Some(value) = table.get("finishes") else {
        return Ok(true);
    };
    match value.as_bool() {
        Some(finishes) => Ok(finishes),
        None => Err(PlanError::Wrong {
            key: key_text(alloc, place, "finishes")?,
        }),
    }
}

/// Channel k, behind those that were found.
#[tactic(auto, unfolding(crate::specs::Channels::channel_of))]
fn channel(
    alloc: Global,
    k: usize,
    found: &[ChannelPlan],
    table: &Value,
) -> Result<ChannelPlan, PlanError>
    ensures value { Gives channel_view result (channel_of k (map channel_view found.now) (view table.now)) }
    ensures valid { IfOk result IsChannel }
{
    let place = Place::Channel(k);
    let name = text_at(alloc, place, "name", table)?;
    if !(is_name(name) && is_new(found, name)) {
        return Err(PlanError::Wrong {
            key: key_text(alloc, place, "name")?,
        });
    }
    let ms = number_or(alloc, 5000, place, "limit_ms", 1, 600_000, table)?;
    let finish_after = number_or(
        alloc,
        0,
        place,
        "finish_after_us",
        0,
        1_000_000_000_000_000,
        table,
    )?;
    let finishes = finishes(alloc, place, table)?;
    let name = String::from_str(alloc, name)?;
    Ok(ChannelPlan {
        name,
        limit: Limit::new(ms * 1000).unwrap(),
        finish_after,
        finishes,
    })
}

/// The channels that these tables describe.
fn each_channel(alloc: Global, tables: &[Value]) -> Result<Vec<ChannelPlan>, PlanError>
    ensures value { Gives (λ v. map channel_view v.items) result (each channel_of 1 [] (map view tables.now)) }
    ensures len { IfOk result (λ v. length v.items ≡ length tables.now) }
    ensures valid { IfOk result (λ v. All IsChannel v.items) }
{
    let mut channels = Vec::new(alloc);
    for (i, table) in tables.iter().enumerate() {
        channels.push(channel(alloc, i + 1, &channels, table)?)?;
    }
    Ok(channels)
}

/// The channels of a session.
#[tactic(auto, unfolding(crate::specs::Channels::channels_of))]
pub(crate) fn channels(alloc: Global, document: &Value) -> Result<Vec<ChannelPlan>, PlanError>
    ensures value { Gives (λ v. map channel_view v.items) result (channels_of (view document.now)) }
    ensures few { IfOk result (λ v. length v.items ≤ 64) }
    ensures valid { IfOk result (λ v. All IsChannel v.items) }
{
    let tables = tables_at(alloc, Place::Document, "channel", document)?;
    at_most(alloc, Place::Document, "channel", MAX_CHANNELS, tables)?;
    each_channel(alloc, tables)
}
