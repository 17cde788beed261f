//! The map from channels to due moments.
ghost use Rattle.std.specs.Prelude.{◌≡◌, ℕ, ◌-◌, ◌≤◌, false, None, Some, replicate, slice_set};
ghost use Rattle.window_snapshot.specs.Mask.{mask_has};
ghost use Rattle.dispatcher.specs.AnrTracker.Due.{due_of, IsFirst, NoneBelow, is_at, is_before, sooner_of, further, least_with};

mod pending;

use std::marker::Model;
use window_snapshot::{mask_first, mask_with, mask_without};

/// A map from channels, numbered 1 to 64, to the moments at which they are due. It allocates no memory.
///
/// Contracts see the table: index `c - 1` has the due moment of channel `c`, if it has one.
#[derive(Debug, Drop)]
pub struct Tracker {
    dues: [Option<u64>; 64],
    /// No channel is due before this time.
    least: u64,
    /// The mask of the channels that have a due time. The search for the first one runs over it.
    pending: u64,
}

impl Model for Tracker {
    ghost use Rattle.std.specs.Prelude.{ℕ, List, Option};
    ghost use Rattle.dispatcher.specs.AnrTracker.Due.{IsTable};

    ghost Value = { List (Option ℕ) };

    ghost view = { λ t. t.dues };

    ghost invariant = { λ t. IsTable t.dues t.least t.pending };
}

impl Tracker {
    /// A map in which no channel is due.
    pub fn new() -> Tracker
        ensures { result ≡ replicate 64 None }
    {
        Tracker {
            dues: none_due(),
            least: 0,
            pending: 0,
        }
    }

    /// Sets the time at which a channel is due.
    pub fn set(&mut self, channel: u32, due: u64)
        requires { (1 ≤ channel) × (channel ≤ 64) }
        ensures { self.new ≡ slice_set self.old (channel - 1) (Some due) }
    {
        self.dues[channel as usize - 1] = Some(due);
        self.least = least_with(self.pending, self.least, due);
        self.pending = mask_with(self.pending, channel);
    }

    /// Clears the due time of a channel.
    pub fn clear(&mut self, channel: u32)
        requires { (1 ≤ channel) × (channel ≤ 64) }
        ensures { self.new ≡ slice_set self.old (channel - 1) None }
    {
        self.dues[channel as usize - 1] = None;
        self.pending = mask_without(self.pending, channel);
    }

    /// When a channel is due.
    pub fn due(&self, channel: u32) -> Option<u64>
        requires { (1 ≤ channel) × (channel ≤ 64) }
        ensures { result ≡ due_of self.now channel }
    {
        due_at(&self.dues, channel)
    }

    /// The earliest due moment and its channel, the lowest one if several are due then; None exactly if no channel is
    /// due.
    pub fn first_due(&self) -> Option<(u64, u32)>
        ensures { IsFirst (due_of self.now) result }
    {
        first_of(&self.dues, self.pending, self.least)
    }
}

/// The table in which no channel is due.
fn none_due() -> [Option<u64>; 64]
    ensures { result ≡ replicate 64 None }
{
    [None; 64]
}

/// A time before which no channel is due, after one was set.
fn least_with(pending: u64, least: u64, due: u64) -> u64
    ensures { result ≡ least_with pending least due }
{
    if pending == 0 || due < least {
        due
    } else {
        least
    }
}

/// The earlier of the first pair so far and another one.
fn sooner(first: Option<(u64, u32)>, pair: (u64, u32)) -> (u64, u32)
    ensures { result ≡ sooner_of first pair }
{
    match first {
        Some(first) if !precedes(pair, first) => first,
        _ => pair,
    }
}

/// Whether a pair of moment and channel comes before another.
fn precedes(pair: (u64, u32), other: (u64, u32)) -> bool
    ensures { result ≡ is_before pair other }
{
    pair.0 < other.0 || (pair.0 == other.0 && pair.1 < other.1)
}

/// When a channel of a table is due.
fn due_at(dues: &[Option<u64>; 64], channel: u32) -> Option<u64>
    requires { (1 ≤ channel) × (channel ≤ 64) }
    ensures { result ≡ due_of dues.now channel }
{
    dues[channel as usize - 1]
}

/// The earlier of the first pair so far and that of another channel, if that is due.
fn further(first: Option<(u64, u32)>, due: Option<u64>, channel: u32) -> Option<(u64, u32)>
    ensures { result ≡ further first due channel }
{
    match due {
        Some(due) => Some(sooner(first, (due, channel))),
        None => first,
    }
}

/// Whether a channel with this due time is due at a time.
fn is_at(due: Option<u64>, moment: u64) -> bool
    ensures { result ≡ is_at due moment }
{
    match due {
        Some(due) => due == moment,
        None => false,
    }
}

/// Searches for the first pair in a mask that has all channels with a due time.
///
/// No channel is due before the time `least`, so the first channel that is due then ends the search. Channels that were
/// sent something by one step are usually due at one time.
fn first_of(dues: &[Option<u64>; 64], pending: u64, least: u64) -> Option<(u64, u32)>
    requires out { (c : ℕ) → mask_has pending c ≡ false → due_of dues.now c ≡ None }
    requires least { NoneBelow (due_of dues.now) least }
    ensures { IsFirst (due_of dues.now) result }
{
    let mut first = None;
    let mut rest = pending;
    while rest != 0 {
        let channel = mask_first(rest);
        let due = due_at(dues, channel);
        if is_at(due, least) {
            return Some((least, channel));
        }
        first = further(first, due, channel);
        rest = mask_without(rest, channel);
    }
    first
}
