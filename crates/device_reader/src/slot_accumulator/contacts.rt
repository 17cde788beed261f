//! Contacts, and lists of them.
ghost use Rattle.std.specs.Prelude.{◌≡◌, ◌+◌, ◌<◌, ◌≤◌, List, [], ◌∷◌, ◌++◌, length, slice_get};
ghost use Rattle.device_reader.specs.SlotAccumulator.Contacts.{AreContacts, Joins, has_tracking, unused};

use input_types::short_list::{Blank, ShortList};
use std::marker::Model;

/// What touches a device: the slot that holds it, its tracking id, where it is in the device's units, and whether it is
/// a palm.
#[derive(Clone, Copy, Debug, PartialEq, Eq)]
pub struct Contact {
    pub slot: u8,
    pub tracking: i32,
    pub x: i32,
    pub y: i32,
    pub palm: bool,
}

impl Blank for Contact {
    ghost nothing = { unused };

    fn blank() -> Contact {
        Contact {
            slot: 0,
            tracking: 0,
            x: 0,
            y: 0,
            palm: false,
        }
    }
}

/// At most 16 contacts in rising slot, whose tracking ids are not negative and differ. Contracts see it as a list.
#[derive(Clone, Copy, Debug, PartialEq, Eq)]
pub struct Contacts {
    list: ShortList<Contact>,
}

impl Model for Contacts {
    ghost use Rattle.std.specs.Prelude.{List};
    ghost use Rattle.device_reader.specs.declared.slot_accumulator.contacts.Contact.{Contact as Element};
    ghost use Rattle.device_reader.specs.SlotAccumulator.Contacts.{AreContacts};

    ghost Value = { List Element };

    ghost view = { λ c. c.list };

    ghost invariant = { λ c. AreContacts c.list };

    ghost inverse = { λ cs. record { list = cs } };
}

impl Contacts {
    /// The most contacts that a list has.
    pub const MAX: usize = 16;

    /// The list without contacts.
    pub fn empty() -> Contacts
        ensures { result ≡ [] }
    {
        Contacts {
            list: ShortList::empty(),
        }
    }

    /// How many contacts it has, at most 16.
    pub fn len(&self) -> usize
        ensures value { result ≡ length self.now }
        ensures range { result ≤ 16 }
        ensures contacts { AreContacts self.now }
    {
        self.list.len()
    }

    /// The contact at index `i`, counted from 0; None exactly where `i` is not below `len`.
    pub fn get(&self, i: usize) -> Option<Contact>
        ensures { result ≡ slice_get self.now i }
    {
        self.list.get(i)
    }

    /// The contacts as a slice.
    pub fn as_slice(&self) -> &[Contact]
        ensures value { result.now ≡ self.now }
        ensures range { length result.now ≤ 16 }
    {
        self.list.as_slice()
    }

    /// Puts a contact behind the list.
    pub(crate) fn push(&mut self, contact: Contact)
        requires room { length self.old < 16 }
        requires joins { Joins self.old contact }
        ensures { self.new ≡ self.old ++ contact ∷ [] }
    {
        self.list.push(contact);
    }
}

/// Whether a contact of the list has this tracking id.
pub(crate) fn tracked(contacts: &[Contact], tracking: i32) -> bool
    ensures { result ≡ has_tracking tracking contacts.now }
{
    contacts.iter().any(|c| c.tracking == tracking)
}
