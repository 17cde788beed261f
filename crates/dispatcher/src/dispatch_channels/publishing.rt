//! Publishes channels.
ghost use Rattle.std.specs.Prelude.{◌≡◌, ℕ, true, ◌-◌, ◌≤◌, ◌&&◌, not, length, slice_set, is_ok, OnOk, OnErr, if◌then◌else◌};
ghost use Rattle.window_snapshot.specs.Mask.{mask_has, mask_with};
ghost use Rattle.dispatcher.specs.InputChannel.Order.{NoneAfter};
ghost use Rattle.dispatcher.specs.InputChannel.State.{published_at, may_finish};
ghost use Rattle.dispatcher.specs.DispatchTables.Dues.{due_in};
ghost use Rattle.dispatcher.specs.DispatchChannels.Table.{channel_in};
ghost use Rattle.dispatcher.specs.DispatchChannels.Changes.{finished_at};
ghost use Rattle.dispatcher.specs.DispatchChannels.Whole.{DuesAre};

use crate::anr_tracker::Tracker;
use crate::dispatch_channels::due::{due_in, set_due};
use crate::dispatch_channels::mask::{first_of, without};
use crate::input_channel::{Channel, UnknownSeq};
use input_types::Moment;
use window_snapshot::{mask_has, mask_with};

/// Publishes a channel at a clock, and sets its due time.
pub(crate) fn publish_one(
    channels: &mut [Channel],
    tracker: &mut Tracker,
    able: u64,
    channel: u32,
    clock: Moment,
)
    requires from { 1 ≤ channel }
    requires to { channel ≤ length channels.old }
    requires few { channel ≤ 64 }
    requires may { NoneAfter clock (channel_in channels.old channel).unfinished }
    ensures channels { channels.new
        ≡ slice_set channels.old (channel - 1) (published_at clock (channel_in channels.old channel)) }
    ensures dues { tracker.new
        ≡ slice_set tracker.old (channel - 1)
        (due_in (mask_has able channel) (published_at clock (channel_in channels.old channel))) }
{
    let kept = &mut channels[channel as usize - 1];
    kept.publish(clock);
    let due = due_in(mask_has(able, channel), kept);
    set_due(tracker, channel, due);
}

/// Finishes a message of a channel, and publishes what may be published then.
pub(crate) fn finish_one(channel: &mut Channel, seq: u64, clock: Moment) -> Result<(), UnknownSeq>
    requires { NoneAfter clock channel.old.unfinished }
    ensures variant { is_ok result ≡ may_finish seq channel.old }
    ensures ok { OnOk result (channel.new ≡ finished_at seq clock channel.old) }
    ensures err { OnErr result (channel.new ≡ channel.old) }
{
    channel.finish(seq)?;
    channel.publish(clock);
    Ok(())
}

/// The mask of the able channels, with a channel added if it is live and none of its messages is late.
pub(crate) fn able_after(able: u64, live: u64, channel: u32, is_late: bool) -> u64
    ensures { result ≡ (if mask_has live channel && not is_late then mask_with able channel else able) }
{
    if mask_has(live, channel) && !is_late {
        mask_with(able, channel)
    } else {
        able
    }
}

/// Publishes the channels of a mask at a clock, and sets their due times.
pub(crate) fn publish_all(
    channels: &mut [Channel],
    tracker: &mut Tracker,
    able: u64,
    mask: u64,
    clock: Moment,
)
    requires opened { (c : ℕ) → mask_has mask c ≡ true → c ≤ length channels.old }
    requires few { length channels.old ≤ 64 }
    requires places { length tracker.old ≡ 64 }
    requires dues { DuesAre tracker.old able channels.old }
    requires may { (c : ℕ) → mask_has mask c ≡ true → NoneAfter clock (channel_in channels.old c).unfinished }
    ensures channels { (c : ℕ) → 1 ≤ c
        → channel_in channels.new c
        ≡ (if mask_has mask c then published_at clock (channel_in channels.old c) else channel_in channels.old c) }
    ensures places { length tracker.new ≡ 64 }
    ensures dues { DuesAre tracker.new able channels.new }
{
    let mut rest = mask;
    while rest != 0 {
        let channel = first_of(rest);
        publish_one(channels, tracker, able, channel, clock);
        rest = without(rest, channel);
    }
}
