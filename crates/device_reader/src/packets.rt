//! The event that says that events were lost.
ghost use Rattle.std.specs.Prelude.{◌≡◌};
ghost use Rattle.raw_events.specs.Packets.{is_drop as drops};

use raw_events::RawEvent;
use raw_events::codes::{EV_SYN, SYN_DROPPED};

/// Whether an event says that events were lost.
#[inline(always)]
pub fn is_drop(event: &RawEvent) -> bool
    ensures { result ≡ drops event.now }
{
    if event.kind != EV_SYN {
        return false;
    }
    event.code == SYN_DROPPED
}
