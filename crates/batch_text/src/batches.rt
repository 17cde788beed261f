//! The items of one section, written as they are released.
ghost use Rattle.std.specs.Prelude.{◌≡◌, ◌≤◌, ◌<◌, ◌+◌, ◌++◌, ℕ, List, [], ◌∷◌, OnOk};
ghost use Rattle.motion_batch.specs.Calls.{Call, flushed, framed, items, taken};
ghost use Rattle.batch_text.specs.Frames.{at_moment, frame_at, with_frame, with_message};
ghost use Rattle.batch_text.specs.Lines.{items_text};
ghost use Rattle.batch_text.specs.Writing.{Writes, Written};

use crate::item::{add_count, add_items};
use input_types::{Message, Moment};
use motion_batch::{Batcher, Item};
use std::alloc::{AllocError, Global};

/// The start of the frame that contains a moment.
fn frame_at(frame: u64, moment: Moment) -> Moment
    requires { 1 ≤ frame }
    ensures { result ≡ frame_at frame moment }
{
    let us = moment.get();
    Moment::new(us - us % frame).unwrap()
}

/// The message with another time.
fn at_moment(moment: Moment, message: &Message) -> Message
    ensures { result ≡ at_moment moment message.now }
{
    Message {
        seq: message.seq,
        moment,
        body: message.body,
    }
}

/// Takes the messages of a section, and writes a line for each item that they release.
#[derive(Drop)]
pub(crate) struct Batches {
    batcher: Batcher,
    /// The latest moment so far.
    latest: Moment,
    /// The moment of the last frame.
    shown: Moment,
    /// How many items were written.
    count: u64,
    /// Released items to write. It is empty between calls, and keeps its room.
    given: Vec<Item>,
}

impl Batches {
    /// Before the first message of a section.
    pub(crate) fn new(alloc: Global) -> Batches
        ensures { (text : List ℕ) → Written [] text result text }
    {
        Batches {
            batcher: Batcher::new(alloc),
            latest: Moment::zero(),
            shown: Moment::zero(),
            count: 0,
            given: Vec::new(alloc),
        }
    }

    /// Takes the next message at its moment or, if an earlier message had a later one, at that moment. A frame that
    /// begins in between comes first.
    pub(crate) fn take(
        &mut self,
        frame: u64,
        message: &Message,
        text: &mut Vec<u8>,
    ) -> Result<(), AllocError>
        requires { 1 ≤ frame }
        ensures { (calls : List Call) (before : List ℕ) → Written calls before self.old text.old.items
            → OnOk result (Written (with_message frame calls message.now) before self.new text.new.items) }
    {
        let moment = message.moment.later(self.latest);
        self.frame(frame_at(frame, moment))?;
        self.hand_over(&at_moment(moment, message))?;
        self.write(text)
    }

    /// Ends the section: releases what still waits, and writes the last line, which says how many items there were.
    pub(crate) fn end(&mut self, text: &mut Vec<u8>) -> Result<(), AllocError>
        ensures { (calls : List Call) (before : List ℕ) → Written calls before self.old text.old.items
            → OnOk result (text.new.items ≡ before ++ items_text (items (flushed ∷ calls))) }
    {
        self.flush()?;
        self.write(text)?;
        add_count(text, self.count)
    }

    /// Begins a frame, if it is later than the last one.
    fn frame(&mut self, at: Moment) -> Result<(), AllocError>
        ensures { (calls : List Call) (before text : List ℕ) → Writes calls before self.old text
            → OnOk result (Writes (with_frame at calls) before self.new text) }
    {
        if self.shown.get() < at.get() {
            self.show(at)
        } else {
            Ok(())
        }
    }

    /// Releases what is due in a frame.
    fn show(&mut self, at: Moment) -> Result<(), AllocError>
        ensures { (calls : List Call) (before text : List ℕ) → Writes calls before self.old text
            → OnOk result (Writes (framed at ∷ calls) before self.new text) }
    {
        self.batcher.frame(at, &mut self.given)?;
        self.shown = at;
        Ok(())
    }

    /// Hands a message to the batcher.
    fn hand_over(&mut self, message: &Message) -> Result<(), AllocError>
        ensures { (calls : List Call) (before text : List ℕ) → Writes calls before self.old text
            → OnOk result (Writes (taken message.now ∷ calls) before self.new text) }
    {
        self.batcher.take(message, &mut self.given)?;
        self.latest = message.moment.later(self.latest);
        Ok(())
    }

    /// Releases everything that waits.
    fn flush(&mut self) -> Result<(), AllocError>
        ensures { (calls : List Call) (before text : List ℕ) → Writes calls before self.old text
            → OnOk result (Writes (flushed ∷ calls) before self.new text) }
    {
        self.batcher.flush(&mut self.given)
    }

    /// Writes what was released.
    fn write(&mut self, text: &mut Vec<u8>) -> Result<(), AllocError>
        ensures { (calls : List Call) (before : List ℕ) → Writes calls before self.old text.old.items
            → OnOk result (Written calls before self.new text.new.items) }
    {
        add_items(text, &self.given)?;
        self.count = self.count.saturating_add(self.given.len() as u64);
        self.given.clear();
        Ok(())
    }
}
