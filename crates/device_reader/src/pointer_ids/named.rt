//! Fingers with their pointer ids, in the order of their slots.
ghost use Rattle.std.specs.Prelude.{◌≡◌, pos};
ghost use Rattle.device_reader.specs.PointerIds.PointerIds.{named_contact, held};

use crate::pointer_ids::assigned::Held;
use crate::slot_accumulator::Contact;
use input_types::PointerId;
use input_types::short_list::{Blank, ShortList};

/// A finger of a packet: its tracking id, its pointer id, and where it is in the device's units.
#[derive(Clone, Copy, Debug, PartialEq, Eq)]
pub struct Named {
    pub tracking: i32,
    pub id: PointerId,
    pub x: i32,
    pub y: i32,
}

impl Blank for Named {
    ghost nothing = { record { tracking = pos 0; id = 0; x = pos 0; y = pos 0 } };

    fn blank() -> Named {
        Named {
            tracking: 0,
            id: PointerId::zero(),
            x: 0,
            y: 0,
        }
    }
}

/// At most 16 named fingers.
pub type NamedList = ShortList<Named>;

/// A finger with its id.
pub(crate) fn name(contact: &Contact, id: PointerId) -> Named
    ensures { result ≡ named_contact contact.now id }
{
    Named {
        tracking: contact.tracking,
        id,
        x: contact.x,
        y: contact.y,
    }
}

/// A finger as a pointer.
pub(crate) fn pointer(contact: &Named) -> Held
    ensures { result ≡ held contact.now }
{
    Held {
        id: contact.id,
        x: contact.x,
        y: contact.y,
    }
}
