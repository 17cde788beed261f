//! What a packet must lead to.
ghost use Rattle.std.specs.Prelude.{◌≡◌};
ghost use Rattle.touch_writer.specs.Places.{wanted as wanted_in};

use input_types::PointerId;

/// A contact that is wanted after a packet: its pointer id, and its position in the device's units.
#[derive(Clone, Copy, Debug, PartialEq, Eq)]
pub struct Want {
    pub id: PointerId,
    pub x: i32,
    pub y: i32,
}

/// The contact that is wanted with this id.
pub(crate) fn wanted(want: &[Want], id: PointerId) -> Option<Want>
    ensures { result ≡ wanted_in id want.now }
{
    for contact in want {
        if contact.id.get() == id.get() {
            return Some(*contact);
        }
    }
    None
}
