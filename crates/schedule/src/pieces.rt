//! The streams text of a run in pieces. The lines of what channels were sent are moved out of the run, not copied.
ghost use Rattle.std.specs.Prelude.{◌≡◌, ◌≢◌, ◌≤◌, ◌+◌, ◌++◌, ℕ, true, List, drop, IfOk, OnErr, OnOk, reverse, length};
ghost use Rattle.std.specs.Option.{unwrap_or};
ghost use Rattle.dispatcher.specs.Access.{gone, is_opened};
ghost use Rattle.dispatcher.specs.Dispatching.{IsAfter};
ghost use Rattle.dispatch_history.specs.Due.{counts};
ghost use Rattle.dispatch_history.specs.Effect.{Effect, stream};
ghost use Rattle.dispatch_history.specs.Plan.{Plan as PlanView};
ghost use Rattle.schedule.specs.declared.keeping.Lines.{Lines};
ghost use Rattle.schedule.specs.Lines.{lines_at};
ghost use Rattle.schedule.specs.Printing.{Prints, WithFront, end_of};
ghost use Rattle.schedule.specs.State.{HasWith};
ghost use Rattle.stream_text.specs.Spelling.{channel_line, channel_section, message_lines};
ghost use Rattle.stream_text.specs.StreamsHistory.{unopened};

use crate::schedule::Schedule;
use crate::stream::Stream;
use crate::text::{add_left, counts_of};
use dispatcher::Dispatcher;
use std::alloc::{AllocError, Global};
use stream_text::{channel_line_text, end_line_text};
use text_pieces::Pieces;

/// Takes out the lines of a channel.
fn take_lines(alloc: Global, streams: &mut Vec<Stream>, channel: u32) -> Vec<u8>
    ensures len { length streams.new.items ≡ length streams.old.items }
    ensures value { 1 ≤ channel → result.items ≡ lines_at streams.old.items channel }
    ensures others { (c : ℕ) → 1 ≤ c → c ≢ channel → lines_at streams.new.items c ≡ lines_at streams.old.items c }
{
    let place = channel as usize;
    if 1 <= place && place <= streams.len() {
        streams[place - 1].take_lines()
    } else {
        Vec::new(alloc)
    }
}

/// The first line of a channel's section.
fn head_text(alloc: Global, channel: u32, name: &str) -> Result<Vec<u8>, AllocError>
    ensures { IfOk result (λ v. v.items ≡ channel_line channel name.now) }
{
    let mut text = Vec::new(alloc);
    channel_line_text(channel, name, &mut text)?;
    Ok(text)
}

/// The lines of the messages that a channel has not released, and the last line of its section.
fn rest_text(alloc: Global, dispatcher: &Dispatcher, channel: u32) -> Result<Vec<u8>, AllocError>
    ensures { (es : List Effect) → IsAfter es dispatcher.now → is_opened es channel ≡ true
        → IfOk result (λ v. v.items
        ≡ message_lines (drop (gone dispatcher.now channel) (reverse (stream es channel)))
        ++ end_of channel (unwrap_or (counts es channel) unopened)) }
{
    let mut text = Vec::new(alloc);
    add_left(dispatcher, channel, &mut text)?;
    add_end(dispatcher, channel, &mut text)?;
    Ok(text)
}

/// Appends the last line of a channel's section.
fn add_end(dispatcher: &Dispatcher, channel: u32, text: &mut Vec<u8>) -> Result<(), AllocError>
    ensures ok { (es : List Effect) → IsAfter es dispatcher.now
        → OnOk result (text.new.items ≡ text.old.items ++ end_of channel (unwrap_or (counts es channel) unopened)) }
    ensures err { OnErr result (text.new.items ≡ text.old.items) }
{
    let counts = counts_of(dispatcher, channel);
    end_line_text(channel, counts.sent, counts.received, counts.finished, text)
}

impl Schedule {
    /// Takes out the section of a channel with this name: what it was sent, and how far its owner has come. If memory
    /// runs out, a prefix of the section was added to the text, and the run may have lost the lines of this channel.
    pub fn take_section(
        &mut self,
        alloc: Global,
        channel: u32,
        name: &str,
        text: &mut Pieces,
    ) -> Result<(), AllocError>
        ensures section { (plan : PlanView) (es : List Effect) → Prints plan es channel self.old
            → is_opened es channel ≡ true → channel ≤ length plan.channels
            → OnOk result (text.new
            ≡ text.old ++ channel_section channel name.now (reverse (stream es channel))
            (unwrap_or (counts es channel) unopened)) }
        ensures after { (plan : PlanView) (es : List Effect) → Prints plan es channel self.old
            → Prints plan es (channel + 1) self.new }
        ensures err { (plan : PlanView) (es : List Effect) → Prints plan es channel self.old
            → is_opened es channel ≡ true → channel ≤ length plan.channels
            → OnErr result (WithFront text.old text.new (channel_section channel name.now
            (reverse (stream es channel)) (unwrap_or (counts es channel) unopened))) }
    {
        text.push(head_text(alloc, channel, name)?)?;
        text.push(take_lines(alloc, &mut self.streams, channel))?;
        text.push(rest_text(alloc, &self.dispatcher, channel)?)
    }

    /// Appends the last line of a channel's section: how far its owner got. If memory runs out, the text is as before.
    pub fn add_end(&self, channel: u32, text: &mut Vec<u8>) -> Result<(), AllocError>
        ensures ok { (how : Lines) (plan : PlanView) (es : List Effect) → HasWith how plan es self.now
            → OnOk result (text.new.items ≡ text.old.items ++ end_of channel (unwrap_or (counts es channel) unopened)) }
        ensures err { OnErr result (text.new.items ≡ text.old.items) }
    {
        add_end(&self.dispatcher, channel, text)
    }
}
