//! What can be asked about clients.
ghost use Rattle.std.specs.Prelude.{◌≡◌, ◌||◌, ℕ, true, false, not, is_some, List};
ghost use Rattle.bits32.specs.Set.{is_in};
ghost use Rattle.routing_rules.specs.Marks.{held};
ghost use Rattle.routing_rules.specs.Pairs.{has};
ghost use Rattle.dispatch_history.specs.Effect.{Effect, past_of};
ghost use Rattle.dispatch_history.specs.Focus.{focus, key_target};
ghost use Rattle.dispatch_history.specs.Step.{marks};
ghost use Rattle.live_input.specs.Asking.{client_of_some, responds};
ghost use Rattle.live_input.specs.Seats.{is_open};
ghost use Rattle.live_input.specs.Standing.{LiveIs};

use crate::client::{Client, is_open};
use crate::closing::oldest;
use crate::live::Live;
use bits32::Bits32;
use input_types::{DeviceId, DisplayId, Moment};
use window_snapshot::mask_has;

impl Live {
    /// The client that has the focus of a display, if one has.
    pub fn focused(&self, display: DisplayId) -> Option<Client>
        ensures { (ds : List ℕ) (es : List Effect) → LiveIs ds es self.now
            → result ≡ client_of_some self.now.seats (focus (past_of es) display) }
    {
        match self.requested_on(display) {
            Some(channel) => {
                if mask_has(self.windows.focusable(display), channel) {
                    self.client_at(channel)
                } else {
                    None
                }
            }
            None => None,
        }
    }

    /// The client that keys go to, if there is one: the one that has the focus of the display to which they were taken.
    pub fn key_target(&self) -> Option<Client>
        ensures { (ds : List ℕ) (es : List Effect) → LiveIs ds es self.now
            → result ≡ client_of_some self.now.seats (key_target (past_of es)) }
    {
        self.focused(self.asked)
    }

    /// Whether a client is open and responds: it was not reported, or has since finished a message and left none late.
    /// A client with nothing to finish responds.
    pub fn is_responsive(&self, client: Client) -> bool
        ensures stale { is_open self.now.seats client ≡ false → result ≡ false }
        ensures open { (ds : List ℕ) (es : List Effect) → LiveIs ds es self.now → is_open self.now.seats client ≡ true
            → result ≡ responds es client.channel }
    {
        if !is_open(&self.seats, client) {
            return false;
        }
        let channel = client.channel;
        let first = oldest(&self.dispatcher, channel);
        let due = self.dispatcher.due(channel);
        responds(first, due)
    }

    /// The ids of the pointers of a device that a client holds.
    pub fn holds(&self, client: Client, device: DeviceId) -> Bits32
        ensures stale { is_open self.now.seats client ≡ false → result ≡ 0 }
        ensures open { (ds : List ℕ) (es : List Effect) → LiveIs ds es self.now → is_open self.now.seats client ≡ true
            → (i : ℕ) → is_in i result ≡ has (held (marks es)) client.channel device i }
    {
        if !is_open(&self.seats, client) {
            return Bits32::empty();
        }
        self.dispatcher.touches().held(client.channel, device)
    }

    /// The clock: the latest time that was handed in. Each call is made at the clock, even if it is handed an earlier
    /// time. A call that is refused and changes nothing leaves the clock.
    pub fn clock(&self) -> Moment
        ensures { result ≡ self.now.clock }
    {
        self.clock
    }
}

/// Whether a channel responds, given its oldest published and unfinished message and the time at which that is due.
fn responds(oldest: Option<u64>, due: Option<u64>) -> bool
    ensures { result ≡ (not (is_some oldest) || is_some due) }
{
    oldest.is_none() || due.is_some()
}
