//! In what two points differ.

/// In what an actual point differs from the expected one. Distances are those of the actual point from the expected
/// one, so they are negative if it is earlier, further left or higher.
#[derive(Clone, Copy, Debug, PartialEq, Eq)]
pub enum Difference {
    /// One is a motion, a key or a change of the focus, and the other is not.
    Kind,
    Device,
    Action,
    Index,
    Flags,
    /// The pointer ids.
    Pointers,
    /// The place of a pointer, in pixels.
    Place { dx: i64, dy: i64 },
    /// The scan code.
    Scan,
    /// The key code.
    Code,
    /// The meta state.
    Meta,
    /// Whether the key goes down.
    Direction,
    Repeat,
    Focus,
    /// The moment, in microseconds.
    Time { us: i64 },
}
