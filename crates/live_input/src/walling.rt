//! Windows and the focus, where clients may be choked.
ghost use Rattle.std.specs.Prelude.{◌≡◌, ℕ, true, false, map, Err, List, IfOk, OnOk, OnErr};
ghost use Rattle.dispatch_calls.specs.declared.call.Call.TheVariants.{FocusOn, Windows};
ghost use Rattle.dispatch_history.specs.Effect.{Effect};
ghost use Rattle.live_input.specs.Answers.{Makes, SameClients};
ghost use Rattle.live_input.specs.Easing.{KeepsReported};
ghost use Rattle.live_input.specs.Limit.{has_window, put_in, unless_choked, walled, with_request, with_windows};
ghost use Rattle.live_input.specs.LimitedCalls.{Accepts, AsksEased, PutsEased, ReportsChoked, ShowsEased, ShowsOrNot};
ghost use Rattle.live_input.specs.Showing.{channel_of, may_ask};
ghost use Rattle.live_input.specs.Standing.{LiveIs};
ghost use Rattle.live_input.specs.State.{latest};
ghost use Rattle.live_input.specs.Windows.{window_of};

use crate::client::Client;
use crate::limit::{Limited, Wanted, copies_with, has_window, unless_choked, walled};
use crate::live::Live;
use crate::refused::{FocusRefused, WindowRefused, WindowsRefused};
use crate::showing::may_ask;
use crate::windows::{ClientWindow, WindowInfo, first_stale, first_twice};
use input_types::{DisplayId, Moment};
use std::alloc::AllocError;
use window_snapshot::MAX_WINDOWS;

impl Limited {
    /// As [`Live::windows`], after choking and releasing clients. In place of the windows of choked clients walls are
    /// shown, until these clients are released.
    pub fn windows(&mut self, now: Moment, windows: Vec<ClientWindow>) -> Result<(), WindowsRefused>
        ensures after { (ds : List ℕ) (es : List Effect) → LiveIs ds es self.old.live
            → ShowsEased ds (latest now self.old.live) windows.items es result self.old self.new }
        ensures clients { SameClients self.old.live self.new.live }
        ensures named { KeepsReported self.old.live.reported self.new.live.reported }
        ensures reports { (ds : List ℕ) (es : List Effect) → LiveIs ds es self.old.live
            → ReportsChoked self.old self.new }
    {
        match self.live.accept(&windows) {
            Ok(()) => match self.show_eased(now, windows) {
                Ok(()) => Ok(()),
                Err(_) => Err(WindowsRefused::Memory),
            },
            Err(error) => Err(error),
        }
    }

    /// Chokes and releases clients, and shows the windows.
    fn show_eased(&mut self, now: Moment, windows: Vec<ClientWindow>) -> Result<(), AllocError>
        ensures after { (ds : List ℕ) (es : List Effect) → LiveIs ds es self.old.live
            → ShowsOrNot ds (latest now self.old.live) windows.items es result self.old self.new }
        ensures clients { SameClients self.old.live self.new.live }
        ensures named { KeepsReported self.old.live.reported self.new.live.reported }
        ensures reports { (ds : List ℕ) (es : List Effect) → LiveIs ds es self.old.live
            → ReportsChoked self.old self.new }
    {
        match self.ease(now) {
            Ok(()) => self.show_walled(now, windows),
            Err(error) => Err(error),
        }
    }

    /// Shows the windows, with walls in place of those of choked clients. If memory runs out, nothing changes.
    fn show_walled(&mut self, now: Moment, windows: Vec<ClientWindow>) -> Result<(), AllocError>
        ensures after { (ds : List ℕ) (es : List Effect) → LiveIs ds es self.old.live
            → OnOk result (Makes ds es (Windows (latest now self.old.live)
            (map window_of (walled self.old.wanted.choked windows.items))) self.new.live) }
        ensures wanted { OnOk result (self.new.wanted ≡ with_windows windows.items self.old.wanted) }
        ensures clients { SameClients self.old.live self.new.live }
        ensures named { self.new.live.reported ≡ self.old.live.reported }
        ensures choked { self.new.wanted.choked ≡ self.old.wanted.choked }
        ensures err { OnErr result (self.new ≡ self.old) }
    {
        let rows = walled(*windows.allocator(), &windows, self.wanted.choked())?;
        match self.live.windows(now, rows) {
            Ok(()) => {
                self.wanted.show(windows);
                Ok(())
            }
            Err(_) => Err(AllocError),
        }
    }

    /// As [`Live::window`], after choking and releasing clients. The window of a choked client is kept for when it is
    /// released, and its wall is shown where the window is.
    pub fn window(
        &mut self,
        now: Moment,
        client: Client,
        info: WindowInfo,
    ) -> Result<(), WindowRefused>
        ensures after { (ds : List ℕ) (es : List Effect) → LiveIs ds es self.old.live
            → PutsEased ds (latest now self.old.live) client info es result self.old self.new }
        ensures clients { SameClients self.old.live self.new.live }
        ensures named { KeepsReported self.old.live.reported self.new.live.reported }
        ensures reports { (ds : List ℕ) (es : List Effect) → LiveIs ds es self.old.live
            → ReportsChoked self.old self.new }
    {
        if !self.live.is_open(client) {
            return Err(WindowRefused::NotOpen);
        }
        if !self.wanted.has(client.channel) {
            return Err(WindowRefused::NotShown);
        }
        match self.wanted.with_window(client.channel, &info) {
            Ok(rows) => match self.show_eased(now, rows) {
                Ok(()) => Ok(()),
                Err(_) => Err(WindowRefused::Memory),
            },
            Err(_) => Err(WindowRefused::Memory),
        }
    }

    /// As [`Live::focus`], after choking and releasing clients; keys go to the display. In place of a choked client the
    /// focus is requested for nobody, until the client is released.
    pub fn focus(
        &mut self,
        now: Moment,
        display: DisplayId,
        client: Option<Client>,
    ) -> Result<(), FocusRefused>
        ensures after { (ds : List ℕ) (es : List Effect) → LiveIs ds es self.old.live
            → AsksEased ds (latest now self.old.live) display client es result self.old self.new }
        ensures stale { may_ask self.old.live.seats client ≡ false
            → (result ≡ Err FocusRefused.NotOpen) × (self.new ≡ self.old) }
        ensures clients { SameClients self.old.live self.new.live }
        ensures named { KeepsReported self.old.live.reported self.new.live.reported }
        ensures reports { (ds : List ℕ) (es : List Effect) → LiveIs ds es self.old.live
            → ReportsChoked self.old self.new }
    {
        if !self.live.may_ask(client) {
            return Err(FocusRefused::NotOpen);
        }
        match self.ease(now) {
            Ok(()) => self.ask_for(now, display, client),
            Err(_) => Err(FocusRefused::Memory),
        }
    }

    /// Requests the focus of a display and takes keys there, for an open client, or for nobody in its place if it is
    /// choked. If memory runs out, nothing changes.
    fn ask_for(
        &mut self,
        now: Moment,
        display: DisplayId,
        client: Option<Client>,
    ) -> Result<(), FocusRefused>
        ensures ok { (ds : List ℕ) (es : List Effect) → LiveIs ds es self.old.live
            → OnOk result (Makes ds es (FocusOn (latest now self.old.live) display
            (channel_of (unless_choked self.old.wanted.choked client)) true) self.new.live
            × (self.new.wanted ≡ with_request display client self.old.wanted)) }
        ensures clients { SameClients self.old.live self.new.live }
        ensures named { self.new.live.reported ≡ self.old.live.reported }
        ensures choked { self.new.wanted.choked ≡ self.old.wanted.choked }
        ensures err { OnErr result ((self.new ≡ self.old) × (result ≡ Err FocusRefused.Memory)) }
    {
        let asked = self.wanted.unless_choked(client);
        match self.live.focus(now, display, asked, true) {
            Ok(()) => {
                self.wanted.ask(display, client);
                Ok(())
            }
            Err(_) => Err(FocusRefused::Memory),
        }
    }
}

impl Live {
    /// Whether the windows can be shown, or why they are refused.
    fn accept(&self, windows: &[ClientWindow]) -> Result<(), WindowsRefused>
        ensures { Accepts self.now.seats windows.now result }
    {
        if let Some(place) = first_stale(&self.seats, windows) {
            return Err(WindowsRefused::NotOpen { place });
        }
        if windows.len() > MAX_WINDOWS {
            return Err(WindowsRefused::TooMany);
        }
        match first_twice(windows) {
            Some(channel) => Err(WindowsRefused::Twice { channel }),
            None => Ok(()),
        }
    }

    /// Whether this is no client, or an open one.
    fn may_ask(&self, client: Option<Client>) -> bool
        ensures { result ≡ may_ask self.now.seats client }
    {
        may_ask(&self.seats, client)
    }
}

impl Wanted {
    /// Copies of the windows, with this in place of what the window of a channel was.
    fn with_window(&self, channel: u32, info: &WindowInfo) -> Result<Vec<ClientWindow>, AllocError>
        ensures { IfOk result (λ rows. rows.items ≡ put_in channel info.now self.now.windows) }
    {
        copies_with(*self.windows.allocator(), &self.windows, channel, info)
    }

    /// Whether a window of a channel is asked for.
    fn has(&self, channel: u32) -> bool
        ensures { result ≡ has_window channel self.now.windows }
    {
        has_window(&self.windows, channel)
    }

    /// The client, or nobody in place of a choked one.
    fn unless_choked(&self, client: Option<Client>) -> Option<Client>
        ensures { result ≡ unless_choked self.now.choked client }
    {
        unless_choked(self.choked, client)
    }

    /// These windows are asked for.
    fn show(&mut self, windows: Vec<ClientWindow>)
        ensures { self.new ≡ with_windows windows.items self.old }
    {
        self.windows = windows;
    }

    /// The focus of a display is asked for.
    fn ask(&mut self, display: DisplayId, client: Option<Client>)
        ensures { self.new ≡ with_request display client self.old }
    {
        self.requested[usize::from(display.get())] = client;
    }
}
