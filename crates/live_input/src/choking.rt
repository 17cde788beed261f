//! Which clients are choked.
ghost use Rattle.std.specs.Prelude.{◌≡◌, ◌||◌, ℕ, nat_lt, true, false, List, bit_or, if◌then◌else◌};
ghost use Rattle.dispatch_history.specs.Effect.{Effect};
ghost use Rattle.dispatcher.specs.Access.{is_opened};
ghost use Rattle.dispatcher.specs.Dispatching.{IsAfter};
ghost use Rattle.window_snapshot.specs.Mask.{is_channel, mask_has, mask_with};
ghost use Rattle.live_input.specs.Limit.{is_choked, unreceived};
ghost use Rattle.live_input.specs.Standing.{LiveIs};

use crate::closing::oldest;
use crate::live::Live;
use dispatcher::Dispatcher;
use window_snapshot::{mask_first, mask_has, mask_with, mask_without};

impl Live {
    /// The mask of the channels whose clients are choked from now on, by the limit and by who was choked so far. It
    /// looks only at channels that may have an unfinished message.
    pub(crate) fn choked_after(&self, most: u64, choked: u64) -> u64
        ensures { (ds : List ℕ) (es : List Effect) → LiveIs ds es self.now → (c : ℕ)
            → mask_has result c ≡ is_choked most choked self.now.seats es c }
    {
        let mut mask = 0;
        let mut rest = self.dispatcher.unfinished();
        while rest != 0 {
            let channel = mask_first(rest);
            mask = self.with_choked(mask, channel, most, choked);
            rest = mask_without(rest, channel);
        }
        mask
    }

    /// The mask, with an opened channel added if its client is choked from now on.
    fn with_choked(&self, mask: u64, channel: u32, most: u64, choked: u64) -> u64
        requires { is_channel channel ≡ true }
        ensures { (ds : List ℕ) (es : List Effect) → LiveIs ds es self.now → is_opened es channel ≡ true
            → result ≡ (if is_choked most choked self.now.seats es channel then mask_with mask channel else mask) }
    {
        if self.is_choked_next(channel, most, choked) {
            mask_with(mask, channel)
        } else {
            mask
        }
    }

    /// Whether the client of an opened channel is choked from now on. Few have more than the limit, so that is tested
    /// first; a channel without a client has nothing unfinished.
    fn is_choked_next(&self, channel: u32, most: u64, choked: u64) -> bool
        requires { is_channel channel ≡ true }
        ensures { (ds : List ℕ) (es : List Effect) → LiveIs ds es self.now → is_opened es channel ≡ true
            → result ≡ is_choked most choked self.now.seats es channel }
    {
        let was = mask_has(choked, channel);
        let count = unreceived(&self.dispatcher, channel);
        if is_past(was, most, count) {
            oldest(&self.dispatcher, channel).is_some()
        } else {
            false
        }
    }

    /// Keeps the channels of a mask as reported.
    pub(crate) fn report(&mut self, mask: u64)
        ensures { self.new ≡ record self.old { reported = bit_or self.old.reported mask } }
    {
        self.reported |= mask;
    }
}

/// How many messages of an opened channel were sent and not received.
fn unreceived(dispatcher: &Dispatcher, channel: u32) -> u64
    ensures { (es : List Effect) → IsAfter es dispatcher.now → is_opened es channel ≡ true
        → result ≡ unreceived es channel }
{
    match dispatcher.counts(channel) {
        Some(counts) => counts.sent.saturating_sub(counts.received),
        None => 0,
    }
}

/// Whether a client was choked, or has more than the most.
fn is_past(was: bool, most: u64, count: u64) -> bool
    ensures { result ≡ (was || nat_lt most count) }
{
    was || most < count
}

/// Whether two masks differ in a channel.
pub(crate) fn differ(mask: u64, other: u64) -> bool
    ensures same { result ≡ false → mask ≡ other }
    ensures other { result ≡ true → ((c : ℕ) → mask_has mask c ≡ mask_has other c) → ⊥ }
{
    mask != other
}
