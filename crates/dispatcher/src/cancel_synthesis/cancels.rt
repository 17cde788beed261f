//! The cancels of pointers that are taken from a window, one after the other.
ghost use Rattle.std.specs.Prelude.{◌≡◌, ◌==◌, not, drop, filter, slice_get};
ghost use Rattle.routing_rules.specs.Outgoing.{cancels_of};
ghost use Rattle.dispatcher.specs.CancelSynthesis.Cancelling.{still_sent};

use bits32::Bits32;
use input_types::{DeviceId, FLAG_CANCELED, Motion, MotionAction, PointerId, Pointers};
use split_motion::{about, part_but, plain};
use std::marker::Model;

/// What a window is sent when pointers of a device are taken from it, one motion after the other: nothing if none is
/// taken, one Cancel if it keeps none, and otherwise a cancelled up for each, which lists what is still held with it.
///
/// It is independent of the window: what the window is sent meanwhile does not change it, and no call allocates memory.
#[derive(Drop)]
pub struct Cancels {
    device: DeviceId,
    /// Whether the window keeps no pointer of the device.
    ends: bool,
    /// What the window has before the next motion.
    left: Pointers,
    /// What is taken from it.
    gone: Pointers,
    /// How many of these were already sent.
    outgoing: usize,
}

impl Model for Cancels {
    ghost use Rattle.std.specs.Prelude.{drop};
    ghost use Rattle.dispatcher.specs.CancelSynthesis.Cancelling.{Cancelling};

    ghost Value = { Cancelling };

    ghost view = { λ c. record { device = c.device; ends = c.ends; left = c.left; gone = drop c.outgoing c.gone } };
}

impl Cancels {
    /// The cancels for a window that keeps some of its pointers of a device and loses the others.
    pub(crate) fn new(device: DeviceId, had: &Pointers, kept: &Pointers, gone: &Pointers) -> Cancels
        ensures { still_sent result ≡ cancels_of device had.now kept.now gone.now }
    {
        Cancels {
            device,
            ends: kept.is_empty(),
            left: *had,
            gone: *gone,
            outgoing: 0,
        }
    }

    /// The next motion; None exactly if none remains.
    pub fn next(&mut self) -> Option<Motion>
        ensures first { result ≡ slice_get (still_sent self.old) 0 }
        ensures others { still_sent self.new ≡ drop 1 (still_sent self.old) }
    {
        let count = self.gone.len();
        if count <= self.outgoing {
            return None;
        }
        if self.ends {
            self.outgoing = count;
            return Some(plain(self.device, MotionAction::Cancel, self.left));
        }
        let pointer = self.gone.as_slice()[self.outgoing];
        let up = about(
            self.device,
            MotionAction::PointerUp,
            pointer.id,
            FLAG_CANCELED,
            self.left,
        );
        self.left = without(&self.left, pointer.id);
        self.outgoing += 1;
        Some(up)
    }
}

/// The pointers of a list except one.
pub(crate) fn without(pointers: &Pointers, id: PointerId) -> Pointers
    ensures { result ≡ filter (λ q. not (q.id == id)) pointers.now }
{
    let mut one = Bits32::empty();
    one.mark(id.get());
    part_but(pointers, one)
}
