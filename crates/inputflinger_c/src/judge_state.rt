//! What a judge knows, as C gets it.
ghost use Rattle.std.specs.Prelude.{◌≡◌, true};
ghost use Rattle.bits32.specs.Set.{members};
ghost use Rattle.gesture_verifier.specs.Told.{is_device, state_of as known};
ghost use Rattle.inputflinger_c.specs.States.{Sends};

use gesture_verifier::Verifier;
use input_types::{Body, DeviceId};
use plain_calls::flag;

/// What the window knows from the messages that were accepted: `struct inputflinger_state`.
#[repr(C)]
#[derive(Clone, Copy, Debug)]
pub struct PlainState {
    /// The pointer ids that are down on each device as bits, starting with device 1.
    pub ids: [u32; 8],
    /// 1 if the window has the focus, else 0.
    pub focus: u8,
}

/// What a judge knows.
pub(crate) fn state_of(verifier: &Verifier) -> PlainState
    ensures { Sends verifier.now result }
{
    PlainState {
        ids: [
            ids_down(verifier, 1),
            ids_down(verifier, 2),
            ids_down(verifier, 3),
            ids_down(verifier, 4),
            ids_down(verifier, 5),
            ids_down(verifier, 6),
            ids_down(verifier, 7),
            ids_down(verifier, 8),
        ],
        focus: flag(has_focus(verifier)),
    }
}

/// The ids that are down on the device of a number, as bits.
fn ids_down(verifier: &Verifier, number: u8) -> u32
    requires { is_device number ≡ true }
    ensures { members result ≡ (known verifier.now).ids number }
{
    verifier.ids_down(DeviceId::new(number).unwrap()).bits()
}

/// Whether the window has the focus: then it may lose it.
fn has_focus(verifier: &Verifier) -> bool
    ensures { result ≡ (known verifier.now).focus }
{
    verifier.reason(&Body::Focus(false)).is_none()
}
