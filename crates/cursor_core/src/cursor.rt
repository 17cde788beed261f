//! The cursor.
ghost use Rattle.std.specs.Prelude.{◌≡◌, ◌≤◌, ◌^◌, ◌-◌, ◌+ℤ◌, ℕ, false, ◌==◌, List, [], ◌∷◌, drop, length};
ghost use Rattle.std.specs.Prelude.{IfOk, OnOk, OnErr, option_map};
ghost use Rattle.std.specs.Int.{int_max, int_min};
ghost use Rattle.std.specs.Prelude.{pos};
ghost use Rattle.window_snapshot.specs.Hits.{touched};
ghost use Rattle.window_snapshot.specs.Mask.{mask_has};
ghost use Rattle.window_snapshot.specs.Walls.{reaches};
ghost use Rattle.cursor_core.specs.declared.call.CursorCall.{CursorCall as Call};
ghost use Rattle.cursor_core.specs.declared.call.CursorCall.TheVariants.{Moved, Remove, Windows};
ghost use Rattle.cursor_core.specs.Calls.{Screen, channel_of, cursor, hovered_by};
ghost use Rattle.cursor_core.specs.Cursor.{CursorStandsFor, stepped};
ghost use Rattle.cursor_core.specs.Kept.{gone};
ghost use Rattle.cursor_core.specs.Told.{stream, stream_of, IsInTurns};

use crate::call::CursorCall;
use crate::corner::{corner_after, corner_in};
use crate::message::HoverMsg;
use crate::note::{Step, note_after, note_before, send_both};
use crate::stream::{Stream, left_of, release, streams};
use input_types::{DisplayId, Moment, Pixel};
use std::alloc::{AllocError, Global};
use std::marker::Model;
use window_snapshot::{Reach, Snapshot, is_channel, mask_without};

/// A mouse cursor on display 0, and what the windows there were sent for it.
///
/// It keeps no list of its calls. Clauses say for which lists of calls it stands, as far as later calls need.
#[derive(Drop)]
pub struct Cursor {
    /// The last pixel of the display, right and down.
    last: Pixel,
    at: Pixel,
    clock: Moment,
    moved: bool,
    live: u64,
    windows: Snapshot,
    hovered: Option<u32>,
    streams: Vec<Stream>,
}

impl Model for Cursor {
    ghost use Rattle.cursor_core.specs.Kept.{CursorState};

    ghost Value = { CursorState };

    ghost view = { λ c. record {
      last = c.last;
      at = c.at;
      clock = c.clock;
      moved = c.moved;
      live = c.live;
      windows = c.windows;
      hovered = c.hovered;
      streams = c.streams.items;
    } };
}

impl Cursor {
    /// A cursor in the middle of a display, in pixels of the display as it is turned. The channels are numbered from 1,
    /// and all are live. There are no windows.
    pub fn new(alloc: Global, width: u16, height: u16, channels: u32) -> Result<Cursor, AllocError>
        requires width { (1 ≤ width) × (width ≤ 16384) }
        requires height { (1 ≤ height) × (height ≤ 16384) }
        requires channels { channels ≤ 64 }
        ensures start { IfOk result
            (λ c. CursorStandsFor (record { width = width; height = height; channels = channels }) [] c) }
        ensures gone { IfOk result (λ c. (w : ℕ) → gone c w ≡ 0) }
    {
        let streams = streams(alloc, channels)?;
        let last = pixel(width - 1, height - 1);
        let at = pixel(width / 2, height / 2);
        Ok(Cursor {
            last,
            at,
            clock: Moment::zero(),
            moved: false,
            live: first_channels(channels),
            windows: Snapshot::empty(alloc),
            hovered: None,
            streams,
        })
    }

    /// Takes a call. If memory runs out, nothing changes.
    pub fn apply(&mut self, call: CursorCall) -> Result<(), AllocError>
        ensures stands { (d : Screen) (calls : List Call) → CursorStandsFor d calls self.old
            → OnOk result (CursorStandsFor d (call ∷ calls) self.new) }
        ensures turns { (d : Screen) (calls : List Call) → CursorStandsFor d calls self.old
            → OnOk result (IsInTurns d (call ∷ calls)) }
        ensures gone { (c : ℕ) → gone self.new c ≡ gone self.old c }
        ensures err { OnErr result (self.new ≡ self.old) }
    {
        match call {
            CursorCall::Moved { now, dx, dy } => self.move_by(now, dx, dy),
            CursorCall::Windows { now, snapshot } => self.show(now, snapshot),
            CursorCall::Remove { now, channel } => self.remove(now, channel),
        }
    }

    /// Everything that a channel was sent, oldest first, except what was released; `None` exactly if it is not one of
    /// the first channels.
    pub fn stream(&self, channel: u32) -> Option<&[HoverMsg]>
        ensures { (d : Screen) (calls : List Call) → CursorStandsFor d calls self.now
            → option_map (λ s. s.now) result ≡ option_map (drop (gone self.now channel)) (stream_of d calls channel) }
    {
        left_of(&self.streams, channel)
    }

    /// Drops what a channel was sent so far, and keeps its room for what it is sent next. Changes nothing for a
    /// channel that is not one of the first.
    pub fn release(&mut self, channel: u32)
        ensures stays { (d : Screen) (calls : List Call) → CursorStandsFor d calls self.old
            → CursorStandsFor d calls self.new }
        ensures gone { (d : Screen) (calls : List Call) → CursorStandsFor d calls self.old
            → 1 ≤ channel → channel ≤ d.channels → gone self.new channel ≡ length (stream d calls channel) }
        ensures others { (c : ℕ) → (c == channel) ≡ false → gone self.new c ≡ gone self.old c }
    {
        release(&mut self.streams, channel);
    }

    /// Where the cursor is, in pixels of the display.
    pub fn cursor(&self) -> Pixel
        ensures { (d : Screen) (calls : List Call) → CursorStandsFor d calls self.now → result ≡ cursor d calls }
    {
        self.at
    }

    /// The mouse moves.
    fn move_by(&mut self, now: Moment, dx: i64, dy: i64) -> Result<(), AllocError>
        ensures stands { (d : Screen) (calls : List Call) → CursorStandsFor d calls self.old
            → OnOk result (CursorStandsFor d (Moved now dx dy ∷ calls) self.new) }
        ensures gone { (c : ℕ) → gone self.new c ≡ gone self.old c }
        ensures err { OnErr result (self.new ≡ self.old) }
    {
        let to = moved_by(&self.last, &self.at, dx, dy);
        let step = Step {
            moment: now.later(self.clock),
            moved: true,
            from: self.at,
            to,
            live: self.live,
            before: self.hovered,
            after: hovered_by(true, &self.windows, self.live, to),
        };
        let left = corner_in(&self.windows, step.before);
        let met = corner_in(&self.windows, step.after);
        self.apply_step(&step, left, met)
    }

    /// Other windows are shown.
    fn show(&mut self, now: Moment, snapshot: Snapshot) -> Result<(), AllocError>
        ensures stands { (d : Screen) (calls : List Call) → CursorStandsFor d calls self.old
            → OnOk result (CursorStandsFor d (Windows now snapshot ∷ calls) self.new) }
        ensures gone { (c : ℕ) → gone self.new c ≡ gone self.old c }
        ensures err { OnErr result (self.new ≡ self.old) }
    {
        let step = Step {
            moment: now.later(self.clock),
            moved: false,
            from: self.at,
            to: self.at,
            live: self.live,
            before: self.hovered,
            after: hovered_by(self.moved, &snapshot, self.live, self.at),
        };
        let left = corner_after(&snapshot, &self.windows, step.before);
        let met = corner_in(&snapshot, step.after);
        self.apply_step(&step, left, met)?;
        self.windows = snapshot;
        Ok(())
    }

    /// A channel is closed.
    fn remove(&mut self, now: Moment, channel: u32) -> Result<(), AllocError>
        ensures stands { (d : Screen) (calls : List Call) → CursorStandsFor d calls self.old
            → OnOk result (CursorStandsFor d (Remove now channel ∷ calls) self.new) }
        ensures gone { (c : ℕ) → gone self.new c ≡ gone self.old c }
        ensures err { OnErr result (self.new ≡ self.old) }
    {
        let live = mask_without(self.live, channel);
        let step = Step {
            moment: now.later(self.clock),
            moved: false,
            from: self.at,
            to: self.at,
            live,
            before: self.hovered,
            after: hovered_by(self.moved, &self.windows, live, self.at),
        };
        let left = corner_in(&self.windows, step.before);
        let met = corner_in(&self.windows, step.after);
        self.apply_step(&step, left, met)
    }

    /// Sends the windows what a step does, and keeps the state after it. `left` and `met` are the corners of the
    /// windows hovered before and after it.
    fn apply_step(&mut self, step: &Step, left: Pixel, met: Pixel) -> Result<(), AllocError>
        ensures ok { OnOk result (self.new ≡ stepped self.old step.now left met) }
        ensures gone { (c : ℕ) → gone self.new c ≡ gone self.old c }
        ensures err { OnErr result (self.new ≡ self.old) }
    {
        let first = note_before(step, left);
        let second = note_after(step, met);
        send_both(&mut self.streams, &first, &second)?;
        self.at = step.to;
        self.clock = step.moment;
        self.moved = step.moved || self.moved;
        self.live = step.live;
        self.hovered = step.after;
        Ok(())
    }
}

/// The pixel at a position on the display.
fn pixel(x: u16, y: u16) -> Pixel
    ensures { result ≡ record { x = pos x; y = pos y } }
{
    Pixel {
        x: i32::from(x),
        y: i32::from(y),
    }
}

/// A pixel moved by a distance, and kept on the display that ends at `last`.
fn moved_by(last: &Pixel, at: &Pixel, dx: i64, dy: i64) -> Pixel
    ensures x { result.x ≡ int_max (pos 0) (int_min (at.now.x +ℤ dx) last.now.x) }
    ensures y { result.y ≡ int_max (pos 0) (int_min (at.now.y +ℤ dy) last.now.y) }
{
    Pixel {
        x: kept_on(last.x, at.x, dx),
        y: kept_on(last.y, at.y, dy),
    }
}

/// A coordinate moved by a distance, and kept on an axis that ends at `last`.
fn kept_on(last: i32, at: i32, by: i64) -> i32
    ensures { result ≡ int_max (pos 0) (int_min (at +ℤ by) last) }
{
    let to = i128::from(at) + i128::from(by);
    if i128::from(last) < to {
        if last < 0 { 0 } else { last }
    } else if to < 0 {
        0
    } else {
        to as i32
    }
}

/// The window that the cursor hovers over, if the mouse has moved.
fn hovered_by(moved: bool, windows: &Snapshot, live: u64, at: Pixel) -> Option<u32>
    ensures { result ≡ hovered_by moved windows.now (mask_has live) at }
{
    if !moved {
        return None;
    }
    let display = DisplayId::zero();
    let reach = Reach {
        channels: live & windows.on(display),
        display,
    };
    channel_of(touched_at(windows, at, &reach))
}

/// The window that a touch at a pixel would go to, among those that it reaches.
fn touched_at(windows: &Snapshot, at: Pixel, reach: &Reach) -> Option<u32>
    ensures { result ≡ touched windows.now (reaches reach.now) at.x at.y }
{
    windows.touched(at.x, at.y, reach)
}

/// The channel of a window that is no wall.
fn channel_of(window: Option<u32>) -> Option<u32>
    ensures { result ≡ channel_of window }
{
    match window {
        Some(channel) => { if is_channel(channel) { window } else { None } }
        None => None,
    }
}

/// The mask of the first channels.
fn first_channels(channels: u32) -> u64
    requires { channels ≤ 64 }
    ensures { result ≡ 2 ^ channels - 1 }
{
    ((1u128 << channels) - 1) as u64
}
