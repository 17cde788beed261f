//! What one channel was sent.
ghost use Rattle.std.specs.Prelude.{◌≡◌, ◌-◌, [], ◌∷◌, length, take, replicate, option_map};
ghost use Rattle.std.specs.Prelude.{OnOk, OnErr, IfOk};
ghost use Rattle.cursor_core.specs.Kept.{empty_row, left_of};
ghost use Rattle.cursor_core.specs.Rows.{row_gone, row_with, rows_gone};

use crate::message::HoverMsg;
use std::alloc::{AllocError, Global};
use std::marker::Model;

/// The messages of a channel, oldest first, except the first ones, which were released.
#[derive(Drop)]
pub(crate) struct Stream {
    messages: Vec<HoverMsg>,
    // How many were released.
    gone: u64,
}

impl Model for Stream {
    ghost use Rattle.std.specs.Prelude.{◌+◌, ◌^◌, ◌<◌, vec_len};
    ghost use Rattle.cursor_core.specs.Kept.{Row};

    ghost Value = { Row };

    ghost view = { λ s. record { gone = s.gone; left = s.messages.items } };

    ghost invariant = { λ s. s.gone + vec_len s.messages < 2 ^ 64 };
}

impl Stream {
    /// A channel that was sent nothing.
    fn new(alloc: Global) -> Stream
        ensures { result ≡ empty_row }
    {
        Stream {
            messages: Vec::new(alloc),
            gone: 0,
        }
    }

    /// The messages that were not released.
    pub(crate) fn left(&self) -> &[HoverMsg]
        ensures { result.now ≡ self.now.left }
    {
        &self.messages
    }

    /// Sends it one more.
    pub(crate) fn push(&mut self, message: HoverMsg) -> Result<(), AllocError>
        ensures ok { OnOk result (self.new ≡ row_with (message ∷ []) self.old) }
        ensures err { OnErr result (self.new ≡ self.old) }
    {
        // The count of the messages must not reach its maximum before the room for them is used up.
        let told = self.gone + self.messages.len() as u64;
        if told == u64::MAX {
            return Err(AllocError);
        }
        self.messages.push(message)?;
        Ok(())
    }

    /// Takes the newest one back.
    pub(crate) fn drop_last(&mut self)
        ensures { self.new ≡ record self.old { left = take (length self.old.left - 1) self.old.left } }
    {
        let left = self.messages.len().saturating_sub(1);
        self.messages.truncate(left);
    }

    /// Drops all of them, and keeps their room.
    fn release(&mut self)
        ensures { self.new ≡ row_gone self.old }
    {
        self.gone += self.messages.len() as u64;
        self.messages.truncate(0);
    }
}

/// The streams of this many channels, each of which was sent nothing.
pub(crate) fn streams(alloc: Global, channels: u32) -> Result<Vec<Stream>, AllocError>
    ensures { IfOk result (λ v. v.items ≡ replicate channels empty_row) }
{
    let mut streams = Vec::with_capacity(alloc, channels as usize)?;
    for _ in 0..channels {
        streams.push(Stream::new(alloc))?;
    }
    Ok(streams)
}

/// What a channel was sent and was not released, if it has a stream. Channels are numbered from 1.
pub(crate) fn left_of(streams: &[Stream], channel: u32) -> Option<&[HoverMsg]>
    ensures { option_map (λ s. s.now) result ≡ left_of streams.now channel }
{
    let place = channel as usize;
    if place == 0 || streams.len() < place {
        return None;
    }
    Some(streams[place - 1].left())
}

/// Drops what a channel was sent so far, if it has a stream.
pub(crate) fn release(streams: &mut [Stream], channel: u32)
    ensures { streams.new ≡ rows_gone channel streams.old }
{
    let place = channel as usize;
    if place == 0 || streams.len() < place {
        return;
    }
    streams[place - 1].release();
}
