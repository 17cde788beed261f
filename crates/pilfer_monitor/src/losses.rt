//! What each window loses.
ghost use Rattle.std.specs.Prelude.{◌≡◌, true};
ghost use Rattle.window_snapshot.specs.Mask.{is_channel};
ghost use Rattle.pilfer_monitor.specs.Pilfer.{set_of};

use bits32::Bits32;
use std::marker::Model;

/// The ids of the pointers that each of the windows 1 to 64 loses. Contracts see it as the list of these sets.
#[derive(Debug, Drop)]
pub struct Losses {
    lost: [Bits32; 64],
}

impl Model for Losses {
    ghost use Rattle.std.specs.Prelude.{ℕ, List};

    ghost Value = { List ℕ };

    ghost view = { λ l. l.lost };
}

impl Losses {
    /// These sets, starting with channel 1.
    pub(crate) fn new(lost: [Bits32; 64]) -> Losses
        ensures { result ≡ lost }
    {
        Losses { lost }
    }

    /// The ids of the pointers that the window of a channel loses.
    pub fn lost(&self, channel: u32) -> Bits32
        requires { is_channel channel ≡ true }
        ensures { result ≡ set_of self.now channel }
    {
        self.lost[channel as usize - 1]
    }
}
