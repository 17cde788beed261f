//! How large the sums of a packet can get. The function has the law as its clause, and does nothing.
ghost use Rattle.std.specs.Prelude.{◌≡◌, ◌<◌, ℕ, List, length, reverse};
ghost use Rattle.raw_events.specs.declared.event.RawEvent.{RawEvent};
ghost use Rattle.cursor_core.specs.Packets.{packet, sum_of};
ghost use Rattle.cursor_core.specs.Sums.{AreI32, total_of};

/// After fewer than 2^32 events, the sums of the packet that has begun are exactly those of its values: none of them
/// saturated. A recording of 32 MiB has fewer events, since each takes a line.
pub fn sums_are_whole()
    ensures { (events : List RawEvent) (code : ℕ) → AreI32 events → length events < 4294967296
        → sum_of code (packet (reverse events)) ≡ total_of code (packet (reverse events)) }
{}
