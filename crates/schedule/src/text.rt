//! The streams text of a run.
ghost use Rattle.std.specs.Prelude.{◌≡◌, ◌++◌, true, List, OnOk, OnErr, drop, reverse, length, take};
ghost use Rattle.std.specs.Option.{unwrap_or};
ghost use Rattle.dispatcher.specs.Access.{gone, is_opened};
ghost use Rattle.dispatcher.specs.Dispatching.{IsAfter};
ghost use Rattle.dispatch_history.specs.Due.{counts, anrs};
ghost use Rattle.dispatch_history.specs.Effect.{Effect, stream};
ghost use Rattle.dispatch_history.specs.Plan.{Plan as PlanView};
ghost use Rattle.schedule.specs.declared.keeping.Lines.{Lines};
ghost use Rattle.schedule.specs.State.{HasWith};
ghost use Rattle.stream_text.specs.Spelling.{message_lines};
ghost use Rattle.stream_text.specs.StreamsHistory.{anr_lines, unopened};

use crate::schedule::Schedule;
use dispatch_calls::{Anr, Counts};
use dispatcher::Dispatcher;
use input_types::Message;
use std::alloc::AllocError;
use stream_text::{anr_text, message_text};

/// Appends the lines of messages.
fn add_messages(messages: &[Message], text: &mut Vec<u8>) -> Result<(), AllocError>
    ensures { OnOk result (text.new.items ≡ text.old.items ++ message_lines messages.now) }
{
    for message in messages {
        message_text(message, text)?;
    }
    Ok(())
}

/// Appends the lines of the messages that a channel has not released.
pub(crate) fn add_left(
    dispatcher: &Dispatcher,
    channel: u32,
    text: &mut Vec<u8>,
) -> Result<(), AllocError>
    ensures { (es : List Effect) → IsAfter es dispatcher.now → is_opened es channel ≡ true
        → OnOk result (text.new.items
        ≡ text.old.items ++ message_lines (drop (gone dispatcher.now channel) (reverse (stream es channel)))) }
{
    match dispatcher.messages(channel) {
        Some(messages) => add_messages(messages, text),
        None => Ok(()),
    }
}

/// How far a channel got; nothing for a channel that was never opened.
pub(crate) fn counts_of(dispatcher: &Dispatcher, channel: u32) -> Counts
    ensures { (es : List Effect) → IsAfter es dispatcher.now → result ≡ unwrap_or (counts es channel) unopened }
{
    match dispatcher.counts(channel) {
        Some(counts) => counts,
        None => Counts {
            sent: 0,
            received: 0,
            finished: 0,
            published: 0,
            live: false,
        },
    }
}

/// Appends the lines of ANRs, or of as many as there is memory for.
fn append_anrs(anrs: &[Anr], text: &mut Vec<u8>) -> Result<(), AllocError>
    ensures ok { OnOk result (text.new.items ≡ text.old.items ++ anr_lines anrs.now) }
    ensures front { take (length text.old.items) text.new.items ≡ text.old.items }
{
    for anr in anrs {
        anr_text(anr.clock, anr.channel, anr.seq, text)?;
    }
    Ok(())
}

/// Appends the lines of ANRs. If memory runs out, `text` stays as it was.
pub fn add_all_anrs(anrs: &[Anr], text: &mut Vec<u8>) -> Result<(), AllocError>
    ensures ok { OnOk result (text.new.items ≡ text.old.items ++ anr_lines anrs.now) }
    ensures err { OnErr result (text.new.items ≡ text.old.items) }
{
    let start = text.len();
    if let Err(error) = append_anrs(anrs, text) {
        text.truncate(start);
        return Err(error);
    }
    Ok(())
}

impl Schedule {
    /// The ANRs of the run, oldest first.
    pub fn anrs(&self) -> &[Anr]
        ensures { (how : Lines) (plan : PlanView) (es : List Effect) → HasWith how plan es self.now
            → result.now ≡ anrs es }
    {
        self.dispatcher.anrs()
    }
}
