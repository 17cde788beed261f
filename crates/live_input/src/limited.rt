//! A service with a limit of unreceived messages: how it begins, what it is asked, and time that passes.
ghost use Rattle.std.specs.Prelude.{◌≡◌, ◌==◌, ◌&&◌, [], ℕ, true, false, None, Some, Err, List, replicate, IfOk, IsOk, OnOk, OnErr};
ghost use Rattle.dispatch_history.specs.Effect.{Effect};
ghost use Rattle.dispatcher.specs.Memory.{MayCount};
ghost use Rattle.live_input.specs.Answers.{SameClients, SameSeats};
ghost use Rattle.live_input.specs.Easing.{IsCalm};
ghost use Rattle.live_input.specs.Limit.{first_wanted};
ghost use Rattle.live_input.specs.LimitedCalls.{ClosesEased, is_right_without, released_on};
ghost use Rattle.live_input.specs.Seats.{is_open, vacant};
ghost use Rattle.live_input.specs.Settling.{due_of, next_due};
ghost use Rattle.live_input.specs.Slots.{none_down};
ghost use Rattle.live_input.specs.Standing.{IsMaskOfHeld, LiveIs};
ghost use Rattle.live_input.specs.Stepwise.{DoesAll, DoesPart, StepsAll, StepsOrNot};
ghost use Rattle.live_input.specs.State.{latest};
ghost use Rattle.window_snapshot.specs.Mask.{mask_has};

use crate::client::Client;
use crate::limit::{Limited, Wanted, has_window};
use crate::live::Live;
use crate::refused::CloseRefused;
use crate::settling::next_due;
use dispatch_calls::{Call, Terms};
use input_types::{Displays, Moment};
use std::alloc::{AllocError, Global};
use window_snapshot::{mask_has, mask_without};

impl Limited {
    /// A service without clients, whose devices are on these displays. All its channels are opened on these terms: a
    /// client that leaves a message unfinished for the limit is reported unresponsive, and keys that its window holds
    /// are repeated after these delays, or never. A client that leaves more than 10,000 messages unreceived is choked.
    pub fn new(alloc: Global, terms: Terms, displays: &Displays) -> Result<Limited, AllocError>
        ensures start { IfOk result (λ s. LiveIs displays.now [] s.live) }
        ensures terms { IfOk result (λ s. s.live.terms ≡ terms) }
        ensures clock { IfOk result (λ s. s.live.clock ≡ 0) }
        ensures seats { IfOk result (λ s. s.live.seats ≡ replicate 64 vacant) }
        ensures opened { IfOk result (λ s. s.live.opened ≡ 0) }
        ensures named { IfOk result (λ s. s.live.reported ≡ 0) }
        ensures devices { IfOk result (λ s. s.live.devices ≡ replicate 8 None) }
        ensures pending { IfOk result (λ s. s.live.pending ≡ []) }
        ensures fingers { IfOk result (λ s. s.live.fingers ≡ replicate 8 (none_down 0)) }
        ensures wanted { IfOk result (λ s. s.wanted ≡ first_wanted 10000) }
    {
        let live = Live::new(alloc, terms, displays)?;
        Ok(Limited {
            live,
            wanted: Wanted::new(alloc, 10_000),
        })
    }

    /// Sets how many messages a client may leave unreceived. The next call that may send something holds to it.
    pub fn set_most(&mut self, most: u64)
        ensures { self.new ≡ record self.old { wanted = record self.old.wanted { most = most } } }
    {
        self.wanted.set_most(most);
    }

    /// How many messages a client may leave unreceived.
    pub fn most(&self) -> u64
        ensures { result ≡ self.now.wanted.most }
    {
        self.wanted.most()
    }

    /// Whether a client is open and choked.
    pub fn is_choked(&self, client: Client) -> bool
        ensures { result ≡ (is_open self.now.live.seats client && mask_has self.now.wanted.choked client.channel) }
    {
        self.live.is_open(client) && mask_has(self.wanted.choked(), client.channel)
    }

    /// As [`Live::close`]. Nothing is asked for the client any more, even if memory runs out.
    pub fn close(&mut self, now: Moment, client: Client) -> Result<(), CloseRefused>
        ensures stale { is_open self.old.live.seats client ≡ false
            → (result ≡ Err CloseRefused.NotOpen) × (self.new ≡ self.old) }
        ensures after { (ds : List ℕ) (es : List Effect) → LiveIs ds es self.old.live
            → is_open self.old.live.seats client ≡ true
            → ClosesEased ds (latest now self.old.live) client es result self.old self.new }
        ensures named { OnErr result (self.new.live.reported ≡ self.old.live.reported) }
    {
        if !self.live.is_open(client) {
            return Err(CloseRefused::NotOpen);
        }
        let shown = self.wanted.is_right_without(client.channel);
        self.wanted.leave(client.channel);
        match self.live.close(now, client) {
            Ok(()) => {
                self.wanted.release(client.channel, shown);
                Ok(())
            }
            Err(error) => Err(error),
        }
    }

    /// The first time at which something is due, as [`Live::due`] has it. While a client is to be choked or released,
    /// or one that was choked is not yet in the mask of an `advance`, it is the clock.
    pub fn due(&self) -> Option<u64>
        ensures calm { (ds : List ℕ) (es : List Effect) → LiveIs ds es self.now.live → IsCalm es self.now
            → self.now.live.reported ≡ 0 → result ≡ due_of es self.now.live }
        ensures uneasy { (ds : List ℕ) (es : List Effect) → LiveIs ds es self.now.live → (IsCalm es self.now → ⊥)
            → result ≡ Some self.now.live.clock }
        ensures told { (self.now.live.reported ≡ 0 → ⊥) → result ≡ Some self.now.live.clock }
    {
        if self.live.is_told() {
            self.due_eased()
        } else {
            Some(self.live.clock().get())
        }
    }

    /// The first time at which something is due, where all reports were returned.
    fn due_eased(&self) -> Option<u64>
        ensures calm { (ds : List ℕ) (es : List Effect) → LiveIs ds es self.now.live → IsCalm es self.now
            → result ≡ due_of es self.now.live }
        ensures uneasy { (ds : List ℕ) (es : List Effect) → LiveIs ds es self.now.live → (IsCalm es self.now → ⊥)
            → result ≡ Some self.now.live.clock }
    {
        if self.is_calm() {
            self.live.due()
        } else {
            Some(self.live.clock().get())
        }
    }

    /// Hands in what still waits to be handed in, and then runs everything that is due up to now, one call after
    /// another, each at its time. Before each of them it chokes and releases clients, so no client runs past the limit
    /// by more than one of them. Returns the mask of the channels whose clients were reported unresponsive or choked,
    /// by this call or by earlier ones, and are still open.
    pub fn advance(&mut self, now: Moment) -> Result<u64, AllocError>
        ensures ok { (ds : List ℕ) (es : List Effect) → LiveIs ds es self.old.live
            → IfOk result (λ mask. StepsAll ds (latest now self.old.live) es mask self.old self.new) }
        ensures err { (ds : List ℕ) (es : List Effect) → LiveIs ds es self.old.live
            → OnErr result (StepsOrNot ds (latest now self.old.live) es self.old self.new) }
        ensures reported { (ds : List ℕ) (es : List Effect) → LiveIs ds es self.old.live
            → IfOk result (λ mask. IsMaskOfHeld mask self.old.live.seats) }
        ensures none { OnOk result (self.new.live.pending ≡ []) }
        ensures still { (ds : List ℕ) (es : List Effect) → LiveIs ds es self.old.live → IsCalm es self.old
            → MayCount es → self.old.live.pending ≡ [] → next_due (latest now self.old.live) es ≡ None
            → IsOk result }
        ensures clock { self.new.live.clock ≡ latest now self.old.live }
        ensures devices { self.new.live.devices ≡ self.old.live.devices }
        ensures seats { SameSeats self.old.live self.new.live }
    {
        let now = self.live.raise(now);
        match self.live.hand_in(now) {
            Ok(_) => self.catch_up(now),
            Err(error) => Err(error),
        }
    }

    /// Runs everything that is due up to now, which is the clock. Before each call it chokes and releases clients.
    fn catch_up(&mut self, now: Moment) -> Result<u64, AllocError>
        ensures ok { (ds : List ℕ) (es : List Effect) → LiveIs ds es self.old.live → self.old.live.clock ≡ now
            → IfOk result (λ mask. DoesAll ds now es mask self.old self.new) }
        ensures err { (ds : List ℕ) (es : List Effect) → LiveIs ds es self.old.live → self.old.live.clock ≡ now
            → OnErr result (DoesPart ds now es self.old self.new) }
        ensures reported { (ds : List ℕ) (es : List Effect) → LiveIs ds es self.old.live → self.old.live.clock ≡ now
            → IfOk result (λ mask. IsMaskOfHeld mask self.old.live.seats) }
        ensures still { (ds : List ℕ) (es : List Effect) → LiveIs ds es self.old.live → self.old.live.clock ≡ now
            → IsCalm es self.old → next_due now es ≡ None → IsOk result }
        ensures clients { SameClients self.old.live self.new.live }
        ensures clock { self.old.live.clock ≡ now → self.new.live.clock ≡ now }
    {
        for made in 0..u64::MAX {
            self.ease(now)?;
            let Some(call) = self.live.next_call(now) else {
                return Ok(self.live.take_reported());
            };
            self.live.note(&call)?;
        }
        Err(AllocError)
    }
}

impl Live {
    /// Whether all reports were returned.
    fn is_told(&self) -> bool
        ensures { result ≡ (self.now.reported == 0) }
    {
        self.reported == 0
    }

    /// The next of everything that is due up to now.
    fn next_call(&self, now: Moment) -> Option<Call>
        ensures { (ds : List ℕ) (es : List Effect) → LiveIs ds es self.now → result ≡ next_due now es }
    {
        next_due(&self.dispatcher, now)
    }

    /// The channels that were reported and not yet returned: they are returned now.
    fn take_reported(&mut self) -> u64
        ensures mask { result ≡ self.old.reported }
        ensures rest { self.new ≡ record self.old { reported = 0 } }
    {
        let reported = self.reported;
        self.reported = 0;
        reported
    }
}

impl Wanted {
    /// Sets how many messages a client may leave unreceived.
    fn set_most(&mut self, most: u64)
        ensures { self.new ≡ record self.old { most = most } }
    {
        self.most = most;
    }

    /// Whether the windows that are shown are these once that of the client of a channel is no longer shown: a wall in
    /// its place would stay.
    fn is_right_without(&self, channel: u32) -> bool
        ensures { result ≡ is_right_without channel self.now }
    {
        self.is_shown && !(mask_has(self.choked, channel) && has_window(&self.windows, channel))
    }

    /// The client of a channel is gone, so it is no longer choked.
    fn release(&mut self, channel: u32, shown: bool)
        ensures { self.new ≡ released_on channel shown self.old }
    {
        self.choked = mask_without(self.choked, channel);
        self.is_shown = shown;
    }
}
