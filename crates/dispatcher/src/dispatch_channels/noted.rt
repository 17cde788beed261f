//! The ANRs: what is recorded of reported channels.
ghost use Rattle.std.specs.Prelude.{◌≡◌, ◌+◌, ◌≤◌, ◌<◌, ◌++◌, length, vec_len, vec_capacity, option_to_list, if◌then◌else◌};
ghost use Rattle.std.specs.Prelude.{OnOk, OnErr};
ghost use Rattle.dispatcher.specs.DispatchTables.Delivery.{none_noted, noted_with, noted_gone};
ghost use Rattle.dispatcher.specs.DispatchTables.Dues.{anr_in, anrs_in};
ghost use Rattle.dispatcher.specs.DispatchChannels.Table.{channel_in};

use crate::input_channel::Channel;
use dispatch_calls::Anr;
use input_types::Moment;
use std::alloc::{AllocError, Global};
use std::marker::Model;
use window_snapshot::mask_has;

/// The ANRs so far, except the released ones, which were the first.
#[derive(Drop)]
pub(crate) struct Anrs {
    list: Vec<Anr>,
    // How many were released.
    gone: u64,
}

impl Model for Anrs {
    ghost use Rattle.std.specs.Prelude.{◌+◌, ◌^◌, ◌<◌, vec_len};
    ghost use Rattle.dispatcher.specs.DispatchTables.Delivery.{Noted};

    ghost Value = { Noted };

    ghost view = { λ n. record { gone = n.gone; left = n.list.items } };

    ghost invariant = { λ n. n.gone + vec_len n.list < 2 ^ 64 };
}

impl Anrs {
    /// No ANRs.
    pub(crate) fn new(alloc: Global) -> Anrs
        ensures { result ≡ none_noted }
    {
        Anrs {
            list: Vec::new(alloc),
            gone: 0,
        }
    }

    /// The ANRs that were not released, oldest first.
    pub(crate) fn left(&self) -> &[Anr]
        ensures { result.now ≡ self.now.left }
    {
        &self.list
    }

    /// Records an ANR for each channel of a mask, at a clock. If memory runs out, nothing changes.
    pub(crate) fn note(
        &mut self,
        channels: &[Channel],
        mask: u64,
        clock: Moment,
    ) -> Result<(), AllocError>
        requires few { length channels.now ≤ 64 }
        ensures ok { OnOk result (self.new
            ≡ noted_with (anrs_in clock mask (channel_in channels.now) (length channels.now)) self.old) }
        ensures err { OnErr result (self.new ≡ self.old) }
    {
        // The count of ANRs must not end before the room for them does.
        let noted = self.gone + self.list.len() as u64;
        if u64::MAX - noted < channels.len() as u64 {
            return Err(AllocError);
        }
        self.list.reserve(channels.len())?;
        note_all(&mut self.list, channels, mask, clock);
        Ok(())
    }

    /// Releases all ANRs, and gives back their memory.
    pub(crate) fn release(&mut self)
        ensures { self.new ≡ noted_gone self.old }
    {
        self.gone += self.list.len() as u64;
        self.list = Vec::new(*self.list.allocator());
    }
}

/// The ANR of a channel that is reported at a clock: its oldest published and unfinished message.
fn anr_in(clock: Moment, number: u32, channel: &Channel) -> Option<Anr>
    ensures { result ≡ anr_in clock number channel.now }
{
    let (seq, _) = channel.oldest_unfinished()?;
    Some(Anr {
        clock,
        channel: number,
        seq,
    })
}

/// The ANR of a channel that may be reported, if it is in the mask.
fn anr_if(is_named: bool, clock: Moment, number: u32, channel: &Channel) -> Option<Anr>
    ensures { result ≡ (if is_named then anr_in clock number channel.now else None) }
{
    if is_named {
        anr_in(clock, number, channel)
    } else {
        None
    }
}

/// Records an ANR, if there is one.
fn note(anrs: &mut Vec<Anr>, anr: Option<Anr>)
    requires { vec_len anrs.old < vec_capacity anrs.old }
    ensures items { anrs.new.items ≡ anrs.old.items ++ option_to_list anr }
    ensures len { vec_len anrs.new ≤ vec_len anrs.old + 1 }
    ensures capacity { vec_capacity anrs.new ≡ vec_capacity anrs.old }
{
    if let Some(anr) = anr {
        anrs.push_reserved(anr);
    }
}

/// Records an ANR for each channel of a mask.
fn note_all(anrs: &mut Vec<Anr>, channels: &[Channel], mask: u64, clock: Moment)
    requires room { vec_len anrs.old + length channels.now ≤ vec_capacity anrs.old }
    requires few { length channels.now ≤ 64 }
    ensures few { vec_len anrs.new ≤ vec_len anrs.old + length channels.now }
    ensures items { anrs.new.items
        ≡ anrs.old.items ++ anrs_in clock mask (channel_in channels.now) (length channels.now) }
{
    for (place, channel) in channels.iter().enumerate() {
        let number = place as u32 + 1;
        let anr = anr_if(mask_has(mask, number), clock, number, channel);
        note(anrs, anr);
    }
}
