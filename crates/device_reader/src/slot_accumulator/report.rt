//! The event that ends a packet.
ghost use Rattle.std.specs.Prelude.{◌≡◌};
ghost use Rattle.raw_events.specs.Packets.{is_report as ends_packet};

use raw_events::RawEvent;
use raw_events::codes::{EV_SYN, SYN_REPORT};

/// Whether an event is a SYN_REPORT, which ends a packet.
pub fn is_report(event: &RawEvent) -> bool
    ensures { result ≡ ends_packet event.now }
{
    if event.kind != EV_SYN {
        return false;
    }
    event.code == SYN_REPORT
}
