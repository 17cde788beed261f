//! The streams text of a core.
ghost use Rattle.std.specs.Prelude.{◌≡◌, ◌≤◌, ◌++◌, List, ℕ, length, reverse, OnOk, OnErr};
ghost use Rattle.std.specs.Option.{unwrap_or};
ghost use Rattle.dispatch_core.specs.Recorded.{effects_of, history_of};
ghost use Rattle.dispatch_history.specs.Due.{counts};
ghost use Rattle.dispatch_history.specs.Effect.{stream};
ghost use Rattle.dispatch_history.specs.Legal.{Legal};
ghost use Rattle.stream_text.specs.Spelling.{channel_section};
ghost use Rattle.stream_text.specs.StreamsHistory.{anr_lines, sections_of, streams_text, unopened};
ghost use Rattle.replay_actors.specs.Texts.{names_of};

use dispatch_calls::{Anr, Counts};
use dispatch_core::Core;
use session_plan::ChannelPlan;
use std::alloc::AllocError;
use stream_text::{anr_text, channel_text};

/// How far a channel has come; of one that was never opened nothing.
fn counts_of(core: &Core, channel: u32) -> Counts
    ensures { result ≡ unwrap_or (counts (effects_of core.now) channel) unopened }
{
    match core.counts(channel) {
        Some(counts) => counts,
        None => Counts {
            sent: 0,
            received: 0,
            finished: 0,
            published: 0,
            live: false,
        },
    }
}

/// Appends the section of a channel.
fn add_section(core: &Core, channel: u32, name: &str, out: &mut Vec<u8>) -> Result<(), AllocError>
    requires legal { Legal core.now.displays (history_of core.now.entries) }
    requires number { 1 ≤ channel }
    ensures ok { OnOk result (out.new.items ≡ out.old.items
        ++ channel_section channel name.now (reverse (stream (effects_of core.now) channel))
        (unwrap_or (counts (effects_of core.now) channel) unopened)) }
    ensures err { OnErr result (out.new.items ≡ out.old.items) }
{
    let counts = counts_of(core, channel);
    match core.stream(channel) {
        Some(messages) => channel_text(channel, name, messages, counts, out),
        None => channel_text(channel, name, &[], counts, out),
    }
}

/// Appends the sections of all channels.
fn add_sections(core: &Core, channels: &[ChannelPlan], out: &mut Vec<u8>) -> Result<(), AllocError>
    requires legal { Legal core.now.displays (history_of core.now.entries) }
    requires few { length channels.now ≤ 64 }
    ensures ok { OnOk result
        (out.new.items ≡ out.old.items ++ sections_of 1 (names_of channels.now) (effects_of core.now)) }
    ensures err { OnErr result ((more : List ℕ) × (out.new.items ≡ out.old.items ++ more)) }
{
    for (place, channel) in channels.iter().enumerate() {
        add_section(core, place as u32 + 1, channel.name.as_str(), out)?;
    }
    Ok(())
}

/// Appends a line for each ANR.
fn add_anrs(anrs: &[Anr], out: &mut Vec<u8>) -> Result<(), AllocError>
    ensures ok { OnOk result (out.new.items ≡ out.old.items ++ anr_lines anrs.now) }
    ensures err { OnErr result ((more : List ℕ) × (out.new.items ≡ out.old.items ++ more)) }
{
    for anr in anrs {
        anr_text(anr.clock, anr.channel, anr.seq, out)?;
    }
    Ok(())
}

/// Appends the streams text of a core whose channels have these names. If memory runs out, a part of it may be
/// appended.
pub(crate) fn add_streams(
    core: &Core,
    channels: &[ChannelPlan],
    out: &mut Vec<u8>,
) -> Result<(), AllocError>
    requires legal { Legal core.now.displays (history_of core.now.entries) }
    requires few { length channels.now ≤ 64 }
    ensures ok { OnOk result
        (out.new.items ≡ out.old.items ++ streams_text (names_of channels.now) (effects_of core.now)) }
    ensures err { OnErr result ((more : List ℕ) × (out.new.items ≡ out.old.items ++ more)) }
{
    add_sections(core, channels, out)?;
    add_anrs(core.anrs(), out)
}
