//! The lanes whose calls hang on the replies: the dispatcher, and the applications that own the channels.
ghost use Rattle.std.specs.Prelude.{◌≡◌, ◌+◌, ◌<◌, ◌≤◌, ℕ, [], IfOk, OnOk, if◌then◌else◌};
ghost use Rattle.turnstile.specs.Seats.{view};
ghost use Rattle.window_snapshot.specs.Mask.{mask_has};
ghost use Rattle.input_service.specs.Services.{IsOf};
ghost use Rattle.replay_actors.specs.Lanes.{pumping, pumps, receiving, receives, next_channel};
ghost use Rattle.replay_actors.specs.Seats.{Stays};

use crate::gate::Gate;
use crate::lane::{Lane, Shared};
use crate::part::Owner;
use dispatch_calls::{Call, Reply};
use input_types::Moment;
use std::alloc::AllocError;
use std::sync::Wait;
use window_snapshot::mask_has;

/// A lane ends after this many idle answers.
const IDLE: u32 = 16_384;

/// Pumps once, and ticks unless that was idle. True if it was idle.
fn pump<'a, R: Wait, G: Gate>(
    shared: &Shared<'a, R, G>,
    lane: &mut Lane,
) -> Result<bool, AllocError>
    requires { IsOf shared.now.service.now lane.old.seat }
    ensures of { IsOf shared.now.service.now lane.new.seat }
    ensures stays { Stays (view lane.old.seat) (view lane.new.seat) }
    ensures did { (n : ℕ) → pumping (view lane.old.seat).mine.own ≡ pumps n
        → IfOk result (λ idle. pumping (view lane.new.seat).mine.own ≡ pumps (if idle then n + 1 else n)) }
{
    let now = Moment::zero();
    let Reply::Idle = lane.call(shared, Call::Pump { now })? else {
        lane.call(shared, Call::Tick { now })?;
        return Ok(false);
    };
    Ok(true)
}

/// Pumps, and ticks after each pump that was not idle, until enough were.
pub(crate) fn dispatch<'a, R: Wait, G: Gate>(
    shared: &Shared<'a, R, G>,
    lane: &mut Lane,
) -> Result<(), AllocError>
    requires of { IsOf shared.now.service.now lane.old.seat }
    requires new { (view lane.old.seat).mine.own ≡ [] }
    ensures of { IsOf shared.now.service.now lane.new.seat }
    ensures stays { Stays (view lane.old.seat) (view lane.new.seat) }
    ensures did { OnOk result (pumping (view lane.new.seat).mine.own ≡ pumps 16384) }
{
    let mut idle = 0;
    'pumps: for _ in shared.rt.forever() {
        if idle == IDLE {
            return Ok(());
        }
        if pump(shared, lane)? {
            idle += 1;
        }
    }
    unreachable!()
}

impl Owner {
    /// The channel that comes after this one.
    fn after(&self, channel: u32) -> u32
        requires { (channel < 4294967292) × (self.now.number < 4294967295) }
        ensures { result ≡ next_channel self.now.channels self.now.number channel }
    {
        if channel + 4 <= self.channels {
            channel + 4
        } else {
            self.number + 1
        }
    }

    /// Receives the next message of a channel, and finishes it if the channel finishes. True if there was none.
    fn receive<'a, R: Wait, G: Gate>(
        &self,
        shared: &Shared<'a, R, G>,
        lane: &mut Lane,
        channel: u32,
    ) -> Result<bool, AllocError>
        requires { IsOf shared.now.service.now lane.old.seat }
        ensures of { IsOf shared.now.service.now lane.new.seat }
        ensures stays { Stays (view lane.old.seat) (view lane.new.seat) }
        ensures did { let o = self.now in (n : ℕ)
            → receiving (mask_has o.finishing) o.channels o.number (view lane.old.seat).mine.own ≡ receives n channel
            → IfOk result (λ none. receiving (mask_has o.finishing) o.channels o.number (view lane.new.seat).mine.own
            ≡ receives (if none then n + 1 else n) (next_channel o.channels o.number channel)) }
    {
        let Reply::Got(message) = lane.call(shared, Call::Receive { channel })? else {
            return Ok(true);
        };
        if mask_has(self.finishing, channel) {
            let now = Moment::zero();
            let seq = message.seq;
            lane.call(shared, Call::Finish { now, channel, seq })?;
        }
        Ok(false)
    }

    /// Takes messages of its channels in turn, until often enough there was none.
    pub(crate) fn attend<'a, R: Wait, G: Gate>(
        &self,
        shared: &Shared<'a, R, G>,
        lane: &mut Lane,
    ) -> Result<(), AllocError>
        requires few { (self.now.channels ≤ 64) × (self.now.number < 4) }
        requires of { IsOf shared.now.service.now lane.old.seat }
        requires new { (view lane.old.seat).mine.own ≡ [] }
        ensures of { IsOf shared.now.service.now lane.new.seat }
        ensures stays { Stays (view lane.old.seat) (view lane.new.seat) }
        ensures did { let o = self.now in OnOk result
            ((c : ℕ) × (receiving (mask_has o.finishing) o.channels o.number (view lane.new.seat).mine.own
            ≡ receives 16384 c)) }
    {
        let mut idle = 0;
        let mut channel = self.number + 1;
        'receives: for _ in shared.rt.forever() {
            if idle == IDLE {
                return Ok(());
            }
            let none = self.receive(shared, lane, channel)?;
            channel = self.after(channel);
            if none {
                idle += 1;
            }
        }
        unreachable!()
    }
}
