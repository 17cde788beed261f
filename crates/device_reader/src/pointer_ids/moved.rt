//! Packets whose fingers are those of the packet before: they only moved.
ghost use Rattle.std.specs.Prelude.{◌≡◌, true, not, ◌&&◌};
ghost use Rattle.std.specs.Ordering.{int_eq};
ghost use Rattle.device_reader.specs.PointerIds.PointerIds.{named as named_in};
ghost use Rattle.device_reader.specs.PointerIds.Following.{are_same as same_fingers};

use crate::pointer_ids::named::{Named, NamedList, name};
use crate::slot_accumulator::{Contact, Contacts};

/// Whether each contact of a packet is the finger at its place in the packet before, and none a palm: then the fingers
/// only moved.
pub(crate) fn are_same(before: &[Named], now: &[Contact]) -> bool
    ensures { result ≡ same_fingers before.now now.now }
{
    if before.len() != now.len() {
        return false;
    }
    for (i, finger) in before.iter().enumerate() {
        if !is_same(finger, &now[i]) {
            return false;
        }
    }
    true
}

/// Whether a contact is a finger of the packet before, and no palm.
fn is_same(finger: &Named, contact: &Contact) -> bool
    ensures { result ≡ (int_eq finger.now.tracking contact.now.tracking && not contact.now.palm) }
{
    finger.tracking == contact.tracking && !contact.palm
}

/// Moves the fingers to where a packet has them, if they only moved.
pub(crate) fn move_fingers(named: &mut NamedList, now: &Contacts)
    requires { same_fingers named.old now.now ≡ true }
    ensures { named.new ≡ named_in named.old now.now }
{
    let contacts = now.as_slice();
    for i in 0..now.len() {
        let id = named.as_slice()[i].id;
        named.set(i, name(&contacts[i], id));
    }
}
