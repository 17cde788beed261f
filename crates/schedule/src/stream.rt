//! The lines of what a channel was sent.
ghost use Rattle.std.specs.Prelude.{◌≡◌, ◌≤◌, ◌+◌, ◌-◌, [], true, ◌++◌, ℕ, List, OnOk, OnErr, IfOk, vec_len, drop, length, reverse};
ghost use Rattle.dispatch_history.specs.Effect.{Effect, stream};
ghost use Rattle.dispatcher.specs.Access.{gone, is_opened};
ghost use Rattle.dispatcher.specs.Dispatching.{IsAfter};
ghost use Rattle.dispatcher.specs.MovedOn.{last_moved};
ghost use Rattle.dispatcher.specs.InputChannel.Moves.{moves_from};
ghost use Rattle.window_snapshot.specs.Mask.{is_channel, mask_has};
ghost use Rattle.stream_text.specs.Spelling.{message_line, message_lines};
ghost use Rattle.schedule.specs.Draining.{WithLast, WithMore, count_to};
ghost use Rattle.schedule.specs.Lines.{lines_at};
ghost use Rattle.schedule.specs.State.{counted};

use dispatcher::Dispatcher;
use input_types::{DeviceId, Message, Moment, Pixel, Pointers};
use std::alloc::{AllocError, Global};
use std::marker::Model;
use std::mem;
use stream_text::LineWriter;
use window_snapshot::{mask_first, mask_without};

/// The messages that a channel was sent and released. Only their lines are kept, which are much shorter.
#[derive(Drop)]
pub(crate) struct Stream {
    lines: Vec<u8>,
    writer: LineWriter,
}

impl Model for Stream {
    ghost use Rattle.std.specs.Prelude.{List, ℕ};

    ghost Value = { List ℕ };

    ghost view = { λ s. s.lines.items };
}

impl Stream {
    pub(crate) fn new(alloc: Global) -> Stream
        ensures { result ≡ [] }
    {
        Stream {
            lines: Vec::new(alloc),
            writer: LineWriter::new(),
        }
    }

    /// Takes the lines out.
    pub(crate) fn take_lines(&mut self) -> Vec<u8>
        ensures value { result.items ≡ self.old }
        ensures none { self.new ≡ [] }
    {
        let alloc = *self.lines.allocator();
        mem::replace(&mut self.lines, Vec::new(alloc))
    }

    /// Appends the line of one more message.
    fn drain(&mut self, message: &Message) -> Result<(), AllocError>
        ensures ok { OnOk result (self.new ≡ self.old ++ message_line message.now) }
        ensures err { OnErr result (self.new ≡ self.old) }
    {
        self.writer.message(message, &mut self.lines)
    }

    /// Appends the line of a Move of these pointers, with these flags and with their positions counted from an origin.
    #[inline(always)]
    fn drain_moves(
        &mut self,
        seq: u64,
        moment: Moment,
        device: DeviceId,
        flags: u32,
        pointers: &Pointers,
        origin: Pixel,
    ) -> Result<(), AllocError>
        ensures ok { OnOk result (self.new ≡ self.old ++ message_line
            (record { seq = seq; moment = moment; body = moves_from origin device flags pointers.now })) }
        ensures err { OnErr result (self.new ≡ self.old) }
    {
        self.writer.moves(
            seq,
            moment,
            device,
            flags,
            pointers,
            origin,
            &mut self.lines,
        )
    }

    /// Appends the lines of more messages.
    fn drain_all(&mut self, messages: &[Message]) -> Result<(), AllocError>
        ensures { OnOk result (self.new ≡ self.old ++ message_lines messages.now) }
    {
        for message in messages {
            self.drain(message)?;
        }
        Ok(())
    }
}

/// A stream without messages for each of `count` channels.
pub(crate) fn empty_streams(alloc: Global, count: usize) -> Result<Vec<Stream>, AllocError>
    ensures len { IfOk result (λ v. vec_len v ≡ count) }
    ensures empty { IfOk result (λ v. (c : ℕ) → lines_at v.items c ≡ []) }
{
    let mut streams = Vec::new(alloc);
    for _ in 0..count {
        streams.push(Stream::new(alloc))?;
    }
    Ok(streams)
}

/// Appends the lines of more messages of a channel.
fn drain_all(
    streams: &mut Vec<Stream>,
    channel: u32,
    messages: &[Message],
) -> Result<(), AllocError>
    ensures { OnOk result (WithMore (message_lines messages.now) channel streams.old.items streams.new.items) }
{
    let place = channel as usize;
    if 1 <= place && place <= streams.len() {
        streams[place - 1].drain_all(messages)?;
    }
    Ok(())
}

/// Appends the messages that a channel has not released to its lines, and returns how many there are.
pub(crate) fn drain_left(
    streams: &mut Vec<Stream>,
    dispatcher: &Dispatcher,
    channel: u32,
) -> Result<u64, AllocError>
    ensures lines { (es : List Effect) → IsAfter es dispatcher.now → is_opened es channel ≡ true
        → OnOk result (WithMore (message_lines (drop (gone dispatcher.now channel) (reverse (stream es channel))))
        channel streams.old.items streams.new.items) }
    ensures count { (es : List Effect) → IsAfter es dispatcher.now → is_opened es channel ≡ true
        → IfOk result (λ n. n ≡ length (stream es channel) - gone dispatcher.now channel) }
{
    match dispatcher.messages(channel) {
        Some(messages) => {
            drain_all(streams, channel, messages)?;
            Ok(messages.len() as u64)
        }
        None => Ok(0),
    }
}

/// Appends the line of the last message of a channel, a Move that bypassed it.
#[inline(always)]
fn drain_moved(
    streams: &mut Vec<Stream>,
    dispatcher: &Dispatcher,
    channel: u32,
    device: DeviceId,
) -> Result<(), AllocError>
    requires { is_channel channel ≡ true }
    ensures { (es : List Effect) → IsAfter es dispatcher.now → is_opened es channel ≡ true
        → gone dispatcher.now channel ≡ length (stream es channel)
        → OnOk result (WithMore (message_line (last_moved es device dispatcher.now channel))
        channel streams.old.items streams.new.items) }
{
    let place = channel as usize;
    if streams.len() < place {
        return Ok(());
    }
    let Some(counts) = dispatcher.counts(channel) else {
        return Ok(());
    };
    let Some(input) = dispatcher.input(channel) else {
        return Ok(());
    };
    streams[place - 1].drain_moves(
        counts.sent,
        dispatcher.clock(),
        device,
        dispatcher.covers().flags(channel, device),
        input.pointers(device),
        dispatcher.origin(channel),
    )
}

/// Appends the line of a Move that bypassed the channels of a mask to the lines of each of them, and returns how many
/// channels these are.
#[inline(always)]
pub(crate) fn drain_each(
    streams: &mut Vec<Stream>,
    dispatcher: &Dispatcher,
    device: DeviceId,
    sent: u64,
) -> Result<u64, AllocError>
    ensures lines { (es : List Effect) → IsAfter es dispatcher.now
        → ((c : ℕ) → mask_has sent c ≡ true → is_opened es c ≡ true)
        → ((c : ℕ) → mask_has sent c ≡ true → gone dispatcher.now c ≡ length (stream es c))
        → OnOk result (WithLast sent device es dispatcher.now streams.old.items streams.new.items) }
    ensures count { (n : ℕ) → ((c : ℕ) → mask_has sent c ≡ true → c ≤ n)
        → IfOk result (λ count. count ≡ counted (count_to n sent)) }
{
    let mut count: u64 = 0;
    let mut rest = sent;
    while rest != 0 {
        let channel = mask_first(rest);
        drain_moved(streams, dispatcher, channel, device)?;
        count = count.saturating_add(1);
        rest = mask_without(rest, channel);
    }
    Ok(count)
}
