//! To which windows one call sends something.
ghost use Rattle.std.specs.Prelude.{◌≡◌, List, OnOk, OnErr};
ghost use Rattle.cursor_core.specs.Kept.{Row};
ghost use Rattle.cursor_core.specs.Told.{is_at};
ghost use Rattle.cursor_core.specs.Notes.{note_at, note_before, note_after, noted, note_list, pixel_of};
ghost use Rattle.cursor_core.specs.Rows.{rows_with};

use crate::message::{HoverAction, HoverMsg, change, message};
use crate::stream::Stream;
use input_types::{Moment, Pixel};
use std::alloc::AllocError;
use window_snapshot::mask_has;

/// What one call does to the cursor and to what it hovers over.
#[derive(Clone, Copy)]
pub(crate) struct Step {
    /// The clock after it.
    pub(crate) moment: Moment,
    /// Whether the mouse moved.
    pub(crate) moved: bool,
    /// The cursor before it.
    pub(crate) from: Pixel,
    /// The cursor after it.
    pub(crate) to: Pixel,
    /// The mask of the channels that are live after it.
    pub(crate) live: u64,
    /// The hovered window before it.
    pub(crate) before: Option<u32>,
    /// The hovered window after it.
    pub(crate) after: Option<u32>,
}

/// A message and the channel that it is for.
#[derive(Clone, Copy)]
pub(crate) struct Note {
    channel: u32,
    message: HoverMsg,
}

/// Whether the hovered window is that of the channel.
fn is_at(hovered: Option<u32>, channel: u32) -> bool
    ensures { result ≡ is_at hovered channel }
{
    match hovered {
        Some(other) => other == channel,
        None => false,
    }
}

/// An Exit is at the cursor before the call, and any other action at the cursor after it.
fn pixel_of(step: &Step, action: HoverAction) -> Pixel
    ensures { result ≡ pixel_of step.now action }
{
    match action {
        HoverAction::Exit => step.from,
        HoverAction::Enter | HoverAction::Move => step.to,
    }
}

/// What a step sends to a window with its corner at `origin`.
fn note_at(step: &Step, channel: u32, action: HoverAction, origin: Pixel) -> Note
    ensures { result ≡ note_at step.now channel action origin }
{
    Note {
        channel,
        message: message(step.moment, action, pixel_of(step, action), origin),
    }
}

/// What a step sends to the window that was hovered, with its corner at `origin`.
pub(crate) fn note_before(step: &Step, origin: Pixel) -> Option<Note>
    ensures { result ≡ note_before step.now origin }
{
    let channel = step.before?;
    if !mask_has(step.live, channel) {
        return None;
    }
    let action = change(true, is_at(step.after, channel), step.moved)?;
    Some(note_at(step, channel, action, origin))
}

/// What a step sends to the window that is hovered now and was not before, with its corner at `origin`.
pub(crate) fn note_after(step: &Step, origin: Pixel) -> Option<Note>
    ensures { result ≡ note_after step.now origin }
{
    let channel = step.after?;
    if is_at(step.before, channel) {
        return None;
    }
    Some(note_at(step, channel, HoverAction::Enter, origin))
}

/// Sends the messages of two notes, or nothing if there is no memory for both.
pub(crate) fn send_both(
    streams: &mut [Stream],
    first: &Option<Note>,
    second: &Option<Note>,
) -> Result<(), AllocError>
    ensures ok { OnOk result (streams.new ≡ rows_with (λ w. noted first.now second.now w) 1 streams.old) }
    ensures err { OnErr result (streams.new ≡ streams.old) }
{
    send(streams, first)?;
    if let Err(error) = send(streams, second) {
        untell(streams, first);
        return Err(error);
    }
    Ok(())
}

/// Sends the message of a note, if there is one and its channel is known.
fn send(streams: &mut [Stream], note: &Option<Note>) -> Result<(), AllocError>
    ensures ok { OnOk result (streams.new ≡ rows_with (note_list note.now) 1 streams.old) }
    ensures err { OnErr result (streams.new ≡ streams.old) }
{
    let Some(note) = note else {
        return Ok(());
    };
    let place = note.channel as usize;
    if place == 0 || streams.len() < place {
        return Ok(());
    }
    streams[place - 1].push(note.message)
}

/// Takes back the message of a note.
fn untell(streams: &mut [Stream], note: &Option<Note>)
    ensures { (rows : List Row) → streams.old ≡ rows_with (note_list note.now) 1 rows
        → streams.new ≡ rows }
{
    let Some(note) = note else {
        return;
    };
    let place = note.channel as usize;
    if place == 0 || streams.len() < place {
        return;
    }
    streams[place - 1].drop_last();
}
