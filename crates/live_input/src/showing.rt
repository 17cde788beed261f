//! Windows, and the focus.
ghost use Rattle.std.specs.Prelude.{◌≡◌, ◌≤◌, ℕ, ◌-◌, true, false, List, Option, None, Some, Ok, Err, OnOk, OnErr, slice_set};
ghost use Rattle.dispatch_calls.specs.declared.call.Call.TheVariants.{Windows, FocusOn};
ghost use Rattle.dispatch_history.specs.Effect.{Effect};
ghost use Rattle.dispatch_history.specs.Legal.{answered};
ghost use Rattle.focus_resolver.specs.Resolver.{keyed_after};
ghost use Rattle.live_input.specs.Answers.{SameClients, SameRest};
ghost use Rattle.live_input.specs.Showing.{FocusGoes, may_ask, channel_of};
ghost use Rattle.live_input.specs.Standing.{AreOfHeld, IsOfSome, LiveIs};
ghost use Rattle.live_input.specs.State.{latest};
ghost use Rattle.live_input.specs.Seats.{is_open};
ghost use Rattle.live_input.specs.Windows.{first_stale, WindowsGo};

use crate::client::{Client, Seat, is_open};
use crate::live::Live;
use crate::refused::{FocusRefused, WindowsRefused};
use crate::windows::{ClientWindow, first_stale, snapshot_of};
use input_types::{DisplayId, Moment};
use std::alloc::AllocError;
use window_snapshot::{Snapshot, SnapshotError};

impl Live {
    /// Replaces the windows by these, front to back; one of no client is a wall. A window whose client is not open is
    /// refused before any other reason.
    pub fn windows(&mut self, now: Moment, windows: Vec<ClientWindow>) -> Result<(), WindowsRefused>
        ensures after { (ds : List ℕ) (es : List Effect) → LiveIs ds es self.old
            → WindowsGo ds (latest now self.old) windows.items es result self.old self.new }
        ensures clients { SameClients self.old self.new }
        ensures named { self.new.reported ≡ self.old.reported }
        ensures clock { (self.old.clock ≤ self.new.clock) × (self.new.clock ≤ latest now self.old) }
        ensures err { OnErr result (self.new ≡ self.old) }
    {
        if let Some(place) = first_stale(&self.seats, &windows) {
            return Err(WindowsRefused::NotOpen { place });
        }
        let now = now.later(self.clock);
        match snapshot_of(self.alloc, windows) {
            Ok(snapshot) => match self.show(now, snapshot) {
                Ok(()) => {
                    self.clock = now;
                    Ok(())
                }
                Err(_) => Err(WindowsRefused::Memory),
            },
            Err(SnapshotError::TooMany) => Err(WindowsRefused::TooMany),
            Err(SnapshotError::Twice { channel }) => Err(WindowsRefused::Twice { channel }),
            Err(SnapshotError::Memory) => Err(WindowsRefused::Memory),
        }
    }

    /// Replaces the windows by these, all of open clients or of nobody. If memory runs out, nothing changes.
    pub(crate) fn show(&mut self, now: Moment, snapshot: Snapshot) -> Result<(), AllocError>
        ensures after { (ds : List ℕ) (es : List Effect) → LiveIs ds es self.old
            → AreOfHeld snapshot self.old.seats
            → OnOk result (LiveIs ds (answered ds (Windows now snapshot) es) self.new) }
        ensures windows { OnOk result (self.new.windows ≡ snapshot) }
        ensures rest { SameRest self.old self.new }
        ensures requests { (self.new.requested ≡ self.old.requested) × (self.new.asked ≡ self.old.asked) }
        ensures err { OnErr result (self.new ≡ self.old) }
    {
        match self.dispatcher.show(now, &snapshot) {
            Ok(_) => {
                self.steps.go_all(&self.dispatcher);
                self.windows = snapshot;
                Ok(())
            }
            Err(error) => Err(error),
        }
    }

    /// Requests the focus of a display for a channel, or for none. If `keys` is set, keys go to this display from now
    /// on. If memory runs out, nothing changes.
    pub(crate) fn request(
        &mut self,
        now: Moment,
        display: DisplayId,
        channel: Option<u32>,
        keys: bool,
    ) -> Result<(), AllocError>
        ensures after { (ds : List ℕ) (es : List Effect) → LiveIs ds es self.old → IsOfSome channel self.old.seats
            → OnOk result (LiveIs ds (answered ds (FocusOn now display channel keys) es) self.new) }
        ensures requests { OnOk result
            ((self.new.requested ≡ slice_set self.old.requested display channel)
            × (self.new.asked ≡ keyed_after keys display self.old.asked)) }
        ensures rest { SameRest self.old self.new }
        ensures windows { self.new.windows ≡ self.old.windows }
        ensures err { OnErr result (self.new ≡ self.old) }
    {
        match self.dispatcher.request(now, display, channel, keys) {
            Ok(_) => {
                self.steps.go_all(&self.dispatcher);
                self.requested[usize::from(display.get())] = channel;
                self.asked = keyed(keys, display, self.asked);
                Ok(())
            }
            Err(error) => Err(error),
        }
    }

    /// Requests the focus of a display for a client, or for none. If `keys` is set, keys go to the focused window of
    /// this display from now on; if not, they go where they went.
    pub fn focus(
        &mut self,
        now: Moment,
        display: DisplayId,
        client: Option<Client>,
        keys: bool,
    ) -> Result<(), FocusRefused>
        ensures after { (ds : List ℕ) (es : List Effect) → LiveIs ds es self.old
            → FocusGoes ds (latest now self.old) display client keys es result self.old self.new }
        ensures stale { may_ask self.old.seats client ≡ false
            → (result ≡ Err FocusRefused.NotOpen) × (self.new ≡ self.old) }
        ensures clients { SameClients self.old self.new }
        ensures named { self.new.reported ≡ self.old.reported }
        ensures clock { (self.old.clock ≤ self.new.clock) × (self.new.clock ≤ latest now self.old) }
        ensures err { OnErr result (self.new ≡ self.old) }
    {
        if !may_ask(&self.seats, client) {
            return Err(FocusRefused::NotOpen);
        }
        let now = now.later(self.clock);
        match self.request(now, display, channel_of(client), keys) {
            Ok(()) => {
                self.clock = now;
                Ok(())
            }
            Err(_) => Err(FocusRefused::Memory),
        }
    }
}

/// The display whose focus gets keys after a request, by where they went.
fn keyed(keys: bool, display: DisplayId, before: DisplayId) -> DisplayId
    ensures { result ≡ keyed_after keys display before }
{
    if keys { display } else { before }
}

/// Whether this is no client, or an open one.
pub(crate) fn may_ask(seats: &[Seat; 64], client: Option<Client>) -> bool
    ensures { result ≡ may_ask seats.now client }
{
    match client {
        Some(client) => is_open(seats, client),
        None => true,
    }
}

/// The channel of a client, if it is one.
pub(crate) fn channel_of(client: Option<Client>) -> Option<u32>
    ensures { result ≡ channel_of client }
{
    match client {
        Some(client) => Some(client.channel),
        None => None,
    }
}
