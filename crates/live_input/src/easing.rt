//! Before a call, clients are choked and released, and the history is made to agree with what is wanted.
ghost use Rattle.std.specs.Prelude.{◌≡◌, ℕ, List, true, IsOk, OnErr, OnOk};
ghost use Rattle.dispatch_history.specs.Effect.{Effect};
ghost use Rattle.live_input.specs.Answers.{SameClients, SameRest};
ghost use Rattle.live_input.specs.Easing.{AsksWanted, Chokes, Eases, IfElse, IsCalm, KeepsReported, at_clock};
ghost use Rattle.live_input.specs.Limit.{are_placed, asked_on, is_placed, is_same, shown_again};
ghost use Rattle.live_input.specs.Standing.{LiveIs};
ghost use Rattle.live_input.specs.State.{latest};

use crate::choking::differ;
use crate::closing::display;
use crate::limit::Limited;
use crate::showing::channel_of;
use input_types::{DisplayId, Moment};
use std::alloc::AllocError;
use window_snapshot::mask_less;

impl Limited {
    /// Whether nothing is to be eased.
    #[inline(always)]
    pub(crate) fn is_calm(&self) -> bool
        ensures { (ds : List ℕ) (es : List Effect) → LiveIs ds es self.now.live
            → IfElse result (IsCalm es self.now) (IsCalm es self.now → ⊥) }
    {
        if !self.wanted.is_shown() {
            return false;
        }
        let before = self.wanted.choked();
        let choked = self.live.choked_after(self.wanted.most(), before);
        if differ(choked, before) {
            return false;
        }
        self.are_asked()
    }

    /// Whether the focus of each display was last requested as it is wanted.
    #[inline(always)]
    fn are_asked(&self) -> bool
        ensures { (ds : List ℕ) (es : List Effect) → LiveIs ds es self.now.live
            → result ≡ are_placed self.now.wanted es }
    {
        if !self.is_asked(display(0)) {
            return false;
        }
        if !self.is_asked(display(1)) {
            return false;
        }
        if !self.is_asked(display(2)) {
            return false;
        }
        self.is_asked(display(3))
    }

    /// Whether the focus of a display was last requested as it is wanted.
    #[inline(always)]
    fn is_asked(&self, display: DisplayId) -> bool
        ensures { (ds : List ℕ) (es : List Effect) → LiveIs ds es self.now.live
            → result ≡ is_placed self.now.wanted es display }
    {
        let client = self.wanted.on(display);
        is_same(self.live.requested_on(display), channel_of(client))
    }

    /// Chokes clients and releases them, and makes the history agree with what is wanted. Usually nothing is to be
    /// eased, so that is tested first.
    #[inline(always)]
    pub(crate) fn ease(&mut self, now: Moment) -> Result<(), AllocError>
        ensures after { (ds : List ℕ) (es : List Effect) → LiveIs ds es self.old.live
            → Eases ds (latest now self.old.live) es result self.old self.new }
        ensures calm { (ds : List ℕ) (es : List Effect) → LiveIs ds es self.old.live → IsCalm es self.old
            → IsOk result × (self.new ≡ at_clock (latest now self.old.live) self.old) }
        ensures clients { SameClients self.old.live self.new.live }
        ensures named { KeepsReported self.old.live.reported self.new.live.reported }
        ensures clock { self.new.live.clock ≡ latest now self.old.live }
    {
        let now = self.live.raise(now);
        if self.is_calm() {
            return Ok(());
        }
        self.choke();
        self.show_wanted(now)?;
        self.ask_wanted(now)
    }

    /// Finds who is choked from now on, and reports those that become so.
    #[inline(never)]
    fn choke(&mut self)
        ensures choked { (ds : List ℕ) (es : List Effect) → LiveIs ds es self.old.live → Chokes es self.old self.new }
        ensures is { (ds : List ℕ) (es : List Effect) → LiveIs ds es self.old.live → LiveIs ds es self.new.live }
        ensures calm { (ds : List ℕ) (es : List Effect) → LiveIs ds es self.old.live → IsCalm es self.old
            → self.new ≡ self.old }
        ensures clients { SameClients self.old.live self.new.live }
        ensures named { KeepsReported self.old.live.reported self.new.live.reported }
        ensures clock { self.new.live.clock ≡ self.old.live.clock }
    {
        let before = self.wanted.choked();
        let choked = self.live.choked_after(self.wanted.most(), before);
        if !differ(choked, before) {
            return;
        }
        self.live.report(mask_less(choked, before));
        self.wanted.set_choked(choked);
    }

    /// Shows the windows with the walls, unless they are shown so. The clock is now. If memory runs out, nothing
    /// changes.
    #[inline(never)]
    fn show_wanted(&mut self, now: Moment) -> Result<(), AllocError>
        ensures after { (ds : List ℕ) (es : List Effect) → LiveIs ds es self.old.live → self.old.live.clock ≡ now
            → OnOk result (LiveIs ds (shown_again ds now self.old.wanted es) self.new.live) }
        ensures wanted { OnOk result (self.new.wanted ≡ record self.old.wanted { is_shown = true }) }
        ensures rest { self.old.live.clock ≡ now → SameRest self.old.live self.new.live }
        ensures err { OnErr result (self.new ≡ self.old) }
        ensures calm { self.old.wanted.is_shown ≡ true → IsOk result × (self.new ≡ self.old) }
    {
        if self.wanted.is_shown() {
            return Ok(());
        }
        let rows = self.wanted.walled()?;
        match self.live.windows(now, rows) {
            Ok(()) => {
                self.wanted.set_shown();
                Ok(())
            }
            Err(_) => Err(AllocError),
        }
    }

    /// Requests the focus of each display as it is wanted, and leaves keys where they go. The clock is now.
    #[inline(never)]
    fn ask_wanted(&mut self, now: Moment) -> Result<(), AllocError>
        ensures after { (ds : List ℕ) (es : List Effect) → LiveIs ds es self.old.live → self.old.live.clock ≡ now
            → AsksWanted ds now es self.old.wanted result self.new.live }
        ensures wanted { self.new.wanted ≡ self.old.wanted }
        ensures rest { self.old.live.clock ≡ now → SameRest self.old.live self.new.live }
        ensures calm { (ds : List ℕ) (es : List Effect) → LiveIs ds es self.old.live
            → are_placed self.old.wanted es ≡ true → IsOk result × (self.new ≡ self.old) }
    {
        self.ask_on(now, display(0))?;
        self.ask_on(now, display(1))?;
        self.ask_on(now, display(2))?;
        self.ask_on(now, display(3))
    }

    /// Requests the focus of a display as it is wanted, unless it was last requested so, and leaves keys where they go.
    /// The clock is now. If memory runs out, nothing changes.
    fn ask_on(&mut self, now: Moment, display: DisplayId) -> Result<(), AllocError>
        ensures after { (ds : List ℕ) (es : List Effect) → LiveIs ds es self.old.live → self.old.live.clock ≡ now
            → OnOk result (LiveIs ds (asked_on ds now self.old.wanted display es) self.new.live) }
        ensures wanted { self.new.wanted ≡ self.old.wanted }
        ensures rest { self.old.live.clock ≡ now → SameRest self.old.live self.new.live }
        ensures err { OnErr result (self.new ≡ self.old) }
        ensures calm { (ds : List ℕ) (es : List Effect) → LiveIs ds es self.old.live
            → is_placed self.old.wanted es display ≡ true → IsOk result × (self.new ≡ self.old) }
    {
        if self.is_asked(display) {
            return Ok(());
        }
        let client = self.wanted.on(display);
        match self.live.focus(now, display, client, false) {
            Ok(()) => Ok(()),
            Err(_) => Err(AllocError),
        }
    }
}

/// Whether two requests are for the same channel, or both for none.
fn is_same(one: Option<u32>, other: Option<u32>) -> bool
    ensures { result ≡ is_same one other }
{
    match (one, other) {
        (Some(channel), Some(second)) => channel == second,
        (None, None) => true,
        _ => false,
    }
}
