//! When channels are due.
ghost use Rattle.std.specs.Prelude.{◌≡◌, ℕ, true, None, ◌+◌, ◌-◌, ◌≤◌, ◌&&◌, nat_le, length, slice_set, if◌then◌else◌};
ghost use Rattle.window_snapshot.specs.Mask.{mask_has, mask_with};
ghost use Rattle.dispatcher.specs.AnrTracker.Due.{due_of};
ghost use Rattle.dispatch_history.specs.Reply.{is_due};
ghost use Rattle.dispatcher.specs.DispatchTables.Dues.{due_in};

use crate::anr_tracker::Tracker;
use crate::dispatch_channels::mask::{first_of, without};
use crate::input_channel::Channel;
use input_types::Moment;
use window_snapshot::mask_with;

/// When an able channel is due: its limit after the delivery of its oldest unfinished message.
fn due_of_oldest(channel: &Channel) -> Option<u64>
    ensures { result ≡ due_in true channel.now }
{
    let (_, delivery) = channel.oldest_unfinished()?;
    Some(delivery.get() + channel.limit().get())
}

/// When a channel is due.
pub(crate) fn due_in(is_able: bool, channel: &Channel) -> Option<u64>
    ensures { result ≡ due_in is_able channel.now }
{
    if is_able {
        due_of_oldest(channel)
    } else {
        None
    }
}

/// Sets or clears the time at which a channel is due.
pub(crate) fn set_due(tracker: &mut Tracker, channel: u32, due: Option<u64>)
    requires { (1 ≤ channel) × (channel ≤ 64) }
    ensures { tracker.new ≡ slice_set tracker.old (channel - 1) due }
{
    match due {
        Some(moment) => tracker.set(channel, moment),
        None => tracker.clear(channel),
    }
}

/// Clears the due times of the channels of a mask.
pub(crate) fn clear_all(tracker: &mut Tracker, mask: u64)
    requires { length tracker.old ≡ 64 }
    ensures places { length tracker.new ≡ 64 }
    ensures dues { (c : ℕ) → due_of tracker.new c ≡ (if mask_has mask c then None else due_of tracker.old c) }
{
    let mut rest = mask;
    while rest != 0 {
        let channel = first_of(rest);
        tracker.clear(channel);
        rest = without(rest, channel);
    }
}

/// Whether a channel is due at or before a time.
fn is_due(due: Option<u64>, now: Moment) -> bool
    ensures { result ≡ is_due due now }
{
    match due {
        Some(moment) => moment <= now.get(),
        None => false,
    }
}

/// The mask, with a channel added if the flag says so.
fn with_if(mask: u64, channel: u32, is_in: bool) -> u64
    ensures { result ≡ (if is_in then mask_with mask channel else mask) }
{
    if is_in {
        mask_with(mask, channel)
    } else {
        mask
    }
}

/// The mask of the channels 1 to `count` that are due at or before a time.
pub(crate) fn due_channels(tracker: &Tracker, count: u32, now: Moment) -> u64
    requires { count ≤ 64 }
    ensures { (c : ℕ) → mask_has result c ≡ (nat_le c count && is_due (due_of tracker.now c) now) }
{
    let mut mask = 0;
    for place in 0..count {
        let channel = place + 1;
        mask = with_if(mask, channel, is_due(tracker.due(channel), now));
    }
    mask
}
