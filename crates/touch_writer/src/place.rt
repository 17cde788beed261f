//! What a slot holds.
ghost use Rattle.std.specs.Prelude.{◌≡◌, ◌≤◌};
ghost use Rattle.touch_writer.specs.Places.{vacant, tracking as tracking_id, kept as kept_by};
ghost use Rattle.touch_writer.specs.Choice.{remains as remains_in, arrives as arrives_as};

use crate::want::{Want, wanted};
use input_types::PointerId;

/// A contact in a slot.
#[derive(Clone, Copy, Debug, PartialEq, Eq)]
pub struct Touch {
    pub id: PointerId,
    pub tracking: i32,
}

/// What was last written to one slot.
#[derive(Clone, Copy, Debug, PartialEq, Eq)]
pub struct Place {
    pub x: i32,
    pub y: i32,
    pub holds: Option<Touch>,
}

/// A slot that nothing was written to.
pub(crate) fn empty_place() -> Place
    ensures { result ≡ vacant }
{
    Place {
        x: 0,
        y: 0,
        holds: None,
    }
}

/// The tracking id that was last written to a slot.
pub(crate) fn tracking(place: &Place) -> i32
    ensures { result ≡ tracking_id place.now }
{
    match place.holds {
        None => -1,
        Some(touch) => touch.tracking,
    }
}

/// The wanted position of the contact that a slot holds, if it is wanted.
pub(crate) fn kept(want: &[Want], place: &Place) -> Option<Want>
    ensures { result ≡ kept_by want.now place.now }
{
    match place.holds {
        None => None,
        Some(touch) => wanted(want, touch.id),
    }
}

/// A slot that no new contact comes into.
pub(crate) fn remains(want: &[Want], place: &Place) -> Place
    ensures { result ≡ remains_in want.now place.now }
{
    match kept(want, place) {
        None => Place {
            x: place.x,
            y: place.y,
            holds: None,
        },
        Some(at) => Place {
            x: at.x,
            y: at.y,
            holds: place.holds,
        },
    }
}

/// A slot that a new contact comes into.
pub(crate) fn arrives(contact: &Want, tracking: u32) -> Place
    requires { tracking ≤ 2147483647 }
    ensures { result ≡ arrives_as contact.now tracking }
{
    Place {
        x: contact.x,
        y: contact.y,
        holds: Some(Touch {
            id: contact.id,
            tracking: tracking as i32,
        }),
    }
}
