//! Clients that come and go.
ghost use Rattle.std.specs.Prelude.{◌≡◌, ℕ, ◌+◌, ◌≤◌, ◌<◌, slice_index_or, ◌↔◌, true, false, not, List, length, Option, None, Some, Ok, Err, IfOk, OnOk, OnErr, if◌then◌else◌};
ghost use Rattle.std.specs.List.{position};
ghost use Rattle.dispatch_history.specs.Effect.{Effect, past_of, stream};
ghost use Rattle.dispatch_history.specs.History.{opened};
ghost use Rattle.dispatcher.specs.Access.{is_opened};
ghost use Rattle.focus_resolver.specs.Resolver.{is_at};
ghost use Rattle.dispatcher.specs.Dispatching.{IsAfter};
ghost use Rattle.window_snapshot.specs.Mask.{is_channel};
ghost use Rattle.window_snapshot.specs.Named.{is_named};
ghost use Rattle.live_input.specs.Seats.{IsHeld, is_open, is_held, is_full, client_at, first_vacant, user_data_of};
ghost use Rattle.live_input.specs.Opening.{OpensClient, OpensWith, OpensOn, CloseGoes, IsNext, opening};
ghost use Rattle.live_input.specs.Answers.{SameRest};
ghost use Rattle.live_input.specs.Closing.{hidden, forgotten};
ghost use Rattle.live_input.specs.Settling.{Settles, next_left};
ghost use Rattle.live_input.specs.Standing.{LiveIs};
ghost use Rattle.live_input.specs.State.{latest};
ghost use Rattle.live_input.specs.Taking.{TakenInPart};

use crate::client::{Client, Seat, client_of, is_open, occupy, seat_of, vacate};
use crate::live::Live;
use crate::options::Options;
use crate::refused::{CloseRefused, OpenRefused};
use dispatch_calls::Call;
use dispatcher::Dispatcher;
use input_types::Moment;
use std::alloc::AllocError;
use window_snapshot::{is_channel, mask_without};

impl Live {
    /// Whether a client is open.
    pub fn is_open(&self, client: Client) -> bool
        ensures { result ≡ is_open self.now.seats client }
    {
        is_open(&self.seats, client)
    }

    /// The client that is open on a channel. It turns the bits of masks into clients.
    pub fn client_at(&self, channel: u32) -> Option<Client>
        ensures { result ≡ (if is_channel channel then client_at self.now.seats channel else None) }
    {
        if is_channel(channel) {
            client_of(channel, seat_of(&self.seats, channel).holder)
        } else {
            None
        }
    }

    /// The user data that a client was opened with; None if it is not open.
    pub fn user_data(&self, client: Client) -> Option<u64>
        ensures { result ≡ user_data_of self.now.seats client }
    {
        if is_open(&self.seats, client) {
            Some(seat_of(&self.seats, client.channel).options.user_data)
        } else {
            None
        }
    }

    /// Opens a client on the first channel that has none.
    ///
    /// A channel is used again; its new client receives nothing that was sent before it was opened. No earlier client
    /// had its generation.
    pub fn open(&mut self) -> Result<Client, OpenRefused>
        ensures full { (result ≡ Err OpenRefused.Full) ↔ (is_full self.old.seats ≡ true) }
        ensures seat { IfOk result (λ client. OpensClient client self.old self.new) }
        ensures after { (ds : List ℕ) (es : List Effect) → LiveIs ds es self.old → IfOk result
            (λ client. OpensOn ds es client self.old self.new) }
        ensures err { OnErr result (self.new ≡ self.old) }
    {
        self.open_with(&Options::new())
    }

    /// Opens a client with options on the first channel that has none, as [`open`](Live::open) does.
    pub fn open_with(&mut self, options: &Options) -> Result<Client, OpenRefused>
        ensures full { (result ≡ Err OpenRefused.Full) ↔ (is_full self.old.seats ≡ true) }
        ensures seat { IfOk result (λ client. OpensWith options.now client self.old self.new) }
        ensures after { (ds : List ℕ) (es : List Effect) → LiveIs ds es self.old → IfOk result
            (λ client. OpensOn ds es client self.old self.new) }
        ensures err { OnErr result (self.new ≡ self.old) }
    {
        let Some(channel) = first_vacant(&self.seats) else {
            return Err(OpenRefused::Full);
        };
        if self.opened == u64::MAX {
            return Err(OpenRefused::Memory);
        }
        match self.open_channel(channel) {
            Ok(sent) => {
                let generation = self.opened + 1;
                self.opened = generation;
                occupy(&mut self.seats, channel, generation, sent, *options);
                Ok(Client {
                    channel,
                    generation,
                })
            }
            Err(_) => Err(OpenRefused::Memory),
        }
    }

    /// Opens a channel, unless it was opened before. Returns how many messages it has. If memory runs out, nothing
    /// changes.
    fn open_channel(&mut self, channel: u32) -> Result<u64, AllocError>
        ensures after { (ds : List ℕ) (es : List Effect) → LiveIs ds es self.old → IsNext channel es
            → OnOk result (LiveIs ds (opening ds self.old.terms channel es) self.new) }
        ensures opened { (ds : List ℕ) (es : List Effect) → LiveIs ds es self.old → IsNext channel es
            → OnOk result (channel ≤ opened (past_of (opening ds self.old.terms channel es))) }
        ensures sent { (ds : List ℕ) (es : List Effect) → LiveIs ds es self.old → IsNext channel es
            → IfOk result (λ n. n ≡ length (stream (opening ds self.old.terms channel es) channel)) }
        ensures rest { self.new ≡ record self.old { dispatcher = self.new.dispatcher; steps = self.new.steps } }
        ensures err { OnErr result (self.new ≡ self.old) }
    {
        if self.dispatcher.opened() < channel {
            let call = Call::Open { terms: self.terms };
            match self.dispatcher.apply(&call) {
                Ok(_) => {
                    self.steps.go(&self.dispatcher, &call);
                    Ok(sent(&self.dispatcher, channel))
                }
                Err(error) => Err(error),
            }
        } else {
            Ok(sent(&self.dispatcher, channel))
        }
    }

    /// Closes a client. Its window is no longer shown, so its pointers and keys are cancelled and it loses the focus.
    /// Its focus requests are withdrawn; keys stay on the display to which they went, and those that another client
    /// holds stay down. All its messages are received and finished. Nothing of it remains, and its channel can be used
    /// again.
    pub fn close(&mut self, now: Moment, client: Client) -> Result<(), CloseRefused>
        ensures stale { is_open self.old.seats client ≡ false
            → (result ≡ Err CloseRefused.NotOpen) × (self.new ≡ self.old) }
        ensures after { (ds : List ℕ) (es : List Effect) → LiveIs ds es self.old → is_open self.old.seats client ≡ true
            → CloseGoes ds (latest now self.old) client es result self.old self.new }
        ensures named { OnErr result (self.new.reported ≡ self.old.reported) }
    {
        if !is_open(&self.seats, client) {
            return Err(CloseRefused::NotOpen);
        }
        let now = self.raise(now);
        let channel = client.channel;
        match self.empty(now, channel) {
            Ok(()) => {
                vacate(&mut self.seats, channel);
                self.reported = mask_without(self.reported, channel);
                Ok(())
            }
            Err(_) => Err(CloseRefused::Memory),
        }
    }

    /// Takes everything from the client of a channel.
    fn empty(&mut self, now: Moment, channel: u32) -> Result<(), AllocError>
        ensures done { (ds : List ℕ) (es : List Effect) → LiveIs ds es self.old → IsHeld channel self.old.seats
            → OnOk result (Settles ds (next_left now channel)
            (forgotten ds now channel (hidden ds now channel es)) self.new) }
        ensures hidden { OnOk result (is_named self.new.windows channel ≡ false) }
        ensures unasked { (ds : List ℕ) (es : List Effect) → LiveIs ds es self.old
            → OnOk result ((y : ℕ) → y < 4 → is_at (slice_index_or self.new.requested y None) channel ≡ false) }
        ensures part { (ds : List ℕ) (es : List Effect) → LiveIs ds es self.old → IsHeld channel self.old.seats
            → TakenInPart ds now channel es self.new }
        ensures rest { SameRest self.old self.new }
    {
        self.hide(now, channel)?;
        self.forget(now, channel)?;
        self.drain(now, channel)
    }
}

/// The first channel on which no client is open.
fn first_vacant(seats: &[Seat; 64]) -> Option<u32>
    ensures value { result ≡ first_vacant seats.now }
    ensures channel { (c : ℕ) → result ≡ Some c → is_channel c ≡ true }
{
    match place_vacant(seats) {
        Some(place) => Some(place as u32 + 1),
        None => None,
    }
}

/// The index of the first vacant seat.
fn place_vacant(seats: &[Seat]) -> Option<usize>
    ensures { result ≡ position (λ s. not (is_held s)) seats.now }
{
    seats.iter().position(|seat| !seat.is_held())
}

/// How many messages a channel has.
fn sent(dispatcher: &Dispatcher, channel: u32) -> u64
    ensures { (es : List Effect) → IsAfter es dispatcher.now → is_opened es channel ≡ true
        → result ≡ length (stream es channel) }
{
    match dispatcher.counts(channel) {
        Some(counts) => counts.sent,
        None => 0,
    }
}
