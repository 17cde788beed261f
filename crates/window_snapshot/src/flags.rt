//! What a window asks of the dispatcher, as a set of named bits.
ghost use Rattle.std.specs.Prelude.{⊤};

use bitflags::{Flag, Flags};

/// What a window asks of the dispatcher, as a set of flags. Names and bits are this project's own choice; the meanings
/// are those of the input configuration that Android's windows have.
///
/// A value may carry bits that are no flag. They are ignored.
#[derive(Clone, Copy, PartialEq, Eq, Debug)]
pub struct WindowFlags {
    bits: u32,
}

impl WindowFlags {
    /// Touches go through it to what is behind; a spy with it sees none.
    pub const NOT_TOUCHABLE: WindowFlags = WindowFlags { bits: 1 };

    /// It never has the focus.
    pub const NOT_FOCUSABLE: WindowFlags = WindowFlags { bits: 2 };

    /// It is sent a touch outside of it, if that goes to a window behind it.
    pub const WATCH_OUTSIDE_TOUCH: WindowFlags = WindowFlags { bits: 4 };

    /// A finger that moves out of it may continue in the window that it enters.
    pub const SLIPPERY: WindowFlags = WindowFlags { bits: 8 };

    /// It sees the touches of what is behind it, beside the window that is touched.
    pub const SPY: WindowFlags = WindowFlags { bits: 16 };

    /// The fingers of one gesture are not divided between it and other windows.
    pub const PREVENT_SPLITTING: WindowFlags = WindowFlags { bits: 32 };

    /// It is the system's own and misleads nobody: it neither obscures nor blocks windows of other owners.
    pub const TRUSTED_OVERLAY: WindowFlags = WindowFlags { bits: 64 };

    const FLAGS: &'static [Flag<WindowFlags>] = &[
        Flag {
            name: "NOT_TOUCHABLE",
            value: WindowFlags::NOT_TOUCHABLE,
        },
        Flag {
            name: "NOT_FOCUSABLE",
            value: WindowFlags::NOT_FOCUSABLE,
        },
        Flag {
            name: "WATCH_OUTSIDE_TOUCH",
            value: WindowFlags::WATCH_OUTSIDE_TOUCH,
        },
        Flag {
            name: "SLIPPERY",
            value: WindowFlags::SLIPPERY,
        },
        Flag {
            name: "SPY",
            value: WindowFlags::SPY,
        },
        Flag {
            name: "PREVENT_SPLITTING",
            value: WindowFlags::PREVENT_SPLITTING,
        },
        Flag {
            name: "TRUSTED_OVERLAY",
            value: WindowFlags::TRUSTED_OVERLAY,
        },
    ];
}

impl Flags for WindowFlags {
    type Bits = u32;

    ghost use Rattle.window_snapshot.specs.FlagTable.{flag_table};

    ghost exact = { ⊤ };

    ghost table = { flag_table };

    ghost set_of = { λ f. f.bits };

    fn flags<'a>() -> &'a [Flag<WindowFlags>] {
        WindowFlags::FLAGS
    }

    fn bits(&self) -> u32 {
        self.bits
    }

    fn from_bits_retain(bits: u32) -> WindowFlags {
        WindowFlags { bits }
    }
}
