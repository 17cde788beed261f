//! What is taken from a client that is closed.
ghost use Rattle.std.specs.Prelude.{◌≡◌, ◌==◌, ℕ, ◌≤◌, true, false, List, Option, None, Some, option_map, IfOk, OnOk, OnErr};
ghost use Rattle.std.specs.List.{list_any};
ghost use Rattle.focus_resolver.specs.Resolver.{is_at};
ghost use Rattle.window_snapshot.specs.Named.{is_named};
ghost use Rattle.dispatch_history.specs.Effect.{Effect, past_of};
ghost use Rattle.dispatch_history.specs.Focus.{requested};
ghost use Rattle.dispatch_history.specs.Delivery.{oldest};
ghost use Rattle.dispatcher.specs.Access.{is_opened};
ghost use Rattle.dispatcher.specs.Dispatching.{IsAfter};
ghost use Rattle.live_input.specs.Answers.{SameRest};
ghost use Rattle.live_input.specs.Closing.{without, hidden, forgotten_on, forgotten};
ghost use Rattle.live_input.specs.Seats.{IsHeld};
ghost use Rattle.live_input.specs.Settling.{Reaches, Settles, next_left};
ghost use Rattle.live_input.specs.Standing.{LiveIs};
ghost use Rattle.live_input.specs.Taking.{TakenInPart};

use crate::live::Live;
use crate::settling::left_call;
use dispatch_calls::Call;
use dispatcher::Dispatcher;
use input_types::{DisplayId, Moment};
use std::alloc::{AllocError, Global};
use window_snapshot::{Snapshot, Window};

impl Live {
    /// Shows the windows without the channel's own, if it has one. If memory runs out, nothing changes.
    pub(crate) fn hide(&mut self, now: Moment, channel: u32) -> Result<(), AllocError>
        ensures after { (ds : List ℕ) (es : List Effect) → LiveIs ds es self.old
            → OnOk result (LiveIs ds (hidden ds now channel es) self.new) }
        ensures hidden { OnOk result (is_named self.new.windows channel ≡ false) }
        ensures rest { SameRest self.old self.new }
        ensures err { OnErr result (self.new ≡ self.old) }
    {
        if !has_window(self.windows.windows(), channel) {
            return Ok(());
        }
        let others = without(self.alloc, &self.windows, channel)?;
        self.show(now, others)
    }

    /// If the focus of a display was requested for a channel, requests it for none, and leaves keys where they go. If
    /// memory runs out, nothing changes.
    fn forget_on(&mut self, now: Moment, display: DisplayId, channel: u32) -> Result<(), AllocError>
        ensures after { (ds : List ℕ) (es : List Effect) → LiveIs ds es self.old
            → OnOk result (LiveIs ds (forgotten_on ds now channel display es) self.new) }
        ensures rest { SameRest self.old self.new }
        ensures windows { self.new.windows ≡ self.old.windows }
        ensures err { OnErr result (self.new ≡ self.old) }
    {
        if is_at(self.requested_on(display), channel) {
            self.request(now, display, None, false)
        } else {
            Ok(())
        }
    }

    /// For each display whose focus was requested for a channel, requests it for none, and leaves keys where they go.
    pub(crate) fn forget(&mut self, now: Moment, channel: u32) -> Result<(), AllocError>
        ensures after { (ds : List ℕ) (es : List Effect) → LiveIs ds es self.old
            → OnOk result (LiveIs ds (forgotten ds now channel es) self.new) }
        ensures part { (ds : List ℕ) (es : List Effect) → LiveIs ds es self.old
            → TakenInPart ds now channel es self.new }
        ensures rest { SameRest self.old self.new }
        ensures windows { self.new.windows ≡ self.old.windows }
    {
        self.forget_on(now, display(0), channel)?;
        self.forget_on(now, display(1), channel)?;
        self.forget_on(now, display(2), channel)?;
        self.forget_on(now, display(3), channel)
    }

    /// The channel for which the focus of a display was requested last.
    pub(crate) fn requested_on(&self, display: DisplayId) -> Option<u32>
        ensures { (ds : List ℕ) (es : List Effect) → LiveIs ds es self.now → result ≡ requested (past_of es) display }
    {
        self.requested[usize::from(display.get())]
    }

    /// Receives and finishes all messages of a channel, which releases them.
    pub(crate) fn drain(&mut self, now: Moment, channel: u32) -> Result<(), AllocError>
        ensures done { (ds : List ℕ) (es : List Effect) → LiveIs ds es self.old → IsHeld channel self.old.seats
            → OnOk result (Settles ds (next_left now channel) es self.new) }
        ensures goes { (ds : List ℕ) (es : List Effect) → LiveIs ds es self.old → IsHeld channel self.old.seats
            → Reaches ds (next_left now channel) es self.new }
        ensures rest { SameRest self.old self.new }
        ensures windows { self.new.windows ≡ self.old.windows }
        ensures requests { self.new.requested ≡ self.old.requested }
    {
        for _ in 0..u64::MAX {
            let Some(call) = next_left(&self.dispatcher, now, channel) else {
                return Ok(());
            };
            self.make(&call)?;
        }
        Err(AllocError)
    }
}

/// What is left to do on a channel, until all of its messages are received and finished.
fn next_left(dispatcher: &Dispatcher, now: Moment, channel: u32) -> Option<Call>
    ensures { (es : List Effect) → IsAfter es dispatcher.now → is_opened es channel ≡ true
        → result ≡ next_left now channel es }
{
    match dispatcher.counts(channel) {
        Some(counts) => left_call(
            now,
            channel,
            counts.received,
            counts.sent,
            oldest(dispatcher, channel),
        ),
        None => None,
    }
}

/// The number of the oldest published and unfinished message of a channel.
pub(crate) fn oldest(dispatcher: &Dispatcher, channel: u32) -> Option<u64>
    ensures { (es : List Effect) → IsAfter es dispatcher.now → is_opened es channel ≡ true
        → result ≡ option_map (λ m. m.seq) (oldest es channel) }
{
    match dispatcher.oldest(channel) {
        Some((seq, _)) => Some(seq),
        None => None,
    }
}

/// The display with this number.
pub(crate) fn display(number: u8) -> DisplayId
    requires { number ≤ 3 }
    ensures { result ≡ number }
{
    DisplayId::new(number).unwrap()
}

/// Whether a channel has one of the windows.
fn has_window(windows: &[Window], channel: u32) -> bool
    ensures { result ≡ list_any (λ v. v.channel == channel) windows.now }
{
    windows.iter().any(|window| window.channel == channel)
}

/// Whether a request is one for the channel.
fn is_at(requested: Option<u32>, channel: u32) -> bool
    ensures { result ≡ is_at requested channel }
{
    match requested {
        Some(other) => channel == other,
        None => false,
    }
}

/// The windows without that of a channel.
fn without(alloc: Global, windows: &Snapshot, channel: u32) -> Result<Snapshot, AllocError>
    ensures { IfOk result (λ others. others ≡ without channel windows.now) }
{
    let others = copies(alloc, windows.windows(), channel)?;
    match Snapshot::new(others) {
        Ok(others) => Ok(others),
        Err(_) => unreachable!(),
    }
}

/// Copies of the windows except that of a channel.
fn copies(alloc: Global, windows: &[Window], channel: u32) -> Result<Vec<Window>, AllocError>
    ensures { IfOk result (λ others. others.items ≡ without channel windows.now) }
{
    let mut others = Vec::new(alloc);
    for window in windows {
        if window.channel != channel {
            others.push(window.copy()?)?;
        }
    }
    Ok(others)
}
