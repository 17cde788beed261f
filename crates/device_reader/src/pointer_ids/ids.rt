//! Pointer ids from packet to packet.
ghost use Rattle.std.specs.Prelude.{◌≡◌, ℕ, ◌+◌, ◌<◌, ◌≤◌, List, [], ◌∷◌, length, find, get_or, nat_eq};
ghost use Rattle.bits32.specs.Set.{is_in, members};
ghost use Rattle.device_reader.specs.declared.slot_accumulator.contacts.Contact.{Contact as Touch};
ghost use Rattle.device_reader.specs.PointerIds.PointerIds.{id_in, id_of, taken_after, least_free, has_id};
ghost use Rattle.device_reader.specs.PointerIds.PointerIds.{named as named_in, named_after, has_palm, is_cancelled};
ghost use Rattle.device_reader.specs.PointerIds.PointerIds.{some_palm, assigned, finger_at, ArePlaces};
ghost use Rattle.device_reader.specs.PointerIds.Assigned.{unused};
ghost use Rattle.device_reader.specs.PointerIds.Slots.{slot_of};

use crate::pointer_ids::assigned::Assigned;
use crate::pointer_ids::moved::{are_same, move_fingers};
use crate::pointer_ids::named::{Named, NamedList, name, pointer};
use crate::slot_accumulator::{Contact, Contacts};
use bits32::Bits32;
use input_types::PointerId;
use std::marker::Model;

/// The pointer ids of one device. It is `Copy` and takes no memory.
///
/// Contracts see the fingers of the last packet with their ids, in slot order.
#[derive(Clone, Copy, Debug, PartialEq, Eq)]
pub struct Ids {
    last: NamedList,
}

impl Model for Ids {
    ghost use Rattle.std.specs.Prelude.{List};
    ghost use Rattle.device_reader.specs.declared.pointer_ids.named.Named.{Named as Element};

    ghost Value = { List Element };

    ghost view = { λ i. i.last };

    ghost inverse = { λ ns. record { last = ns } };
}

impl Ids {
    /// No packet came.
    pub fn new() -> Ids
        ensures { result ≡ named_after [] }
    {
        Ids {
            last: NamedList::empty(),
        }
    }

    /// The pointers of the next packet, in rising id, and the ids that are cancelled in it.
    ///
    /// A finger is a contact that is no palm, and only fingers are pointers. A finger keeps its id as long as its
    /// tracking id is that of a finger in successive packets. Each new finger, in slot order, gets the least id that no
    /// finger of the packet before has and that no new finger of a lower slot got. AOSP's touch mapper gives its ids in
    /// this way. An id of the packet before is cancelled if its tracking id is that of a palm now; no finger gets it in
    /// this packet.
    pub fn assign(&mut self, now: &Contacts) -> Assigned
        ensures pointers { result.pointers ≡ assigned (named_in self.old now.now) }
        ensures cancelled { (i : ℕ) → is_in i result.cancelled ≡ is_cancelled self.old now.now i }
        ensures last { self.new ≡ named_in self.old now.now }
        ensures packets { (past : List (List Touch)) → self.old ≡ named_after past → self.new
            ≡ named_after (now.now ∷ past) }
    {
        let mut pointers = Assigned::empty();
        pointers.cancel(name_next(&mut self.last, now));
        put_by_id(self.last.as_slice(), &mut pointers);
        pointers
    }

    /// The slot of each pointer that `assign` returned, at the pointer's index, given the contacts of that packet. None
    /// of these may be a palm.
    pub fn slots(&self, now: &Contacts, pointers: &Assigned) -> [u8; 16]
        ensures many { length result ≡ 16 }
        ensures slots { (i : ℕ) → i < length pointers.now.pointers → get_or result i 0
            ≡ slot_of (get_or pointers.now.pointers i unused).id self.now now.now }
    {
        let mut slots = [0; 16];
        let held = pointers.as_slice();
        for i in 0..pointers.len() {
            slots[i] = slot_of(self.last.as_slice(), now.as_slice(), held[i].id);
        }
        slots
    }

    /// Begins anew, as `new` does.
    pub fn reset(&mut self)
        ensures { self.new ≡ named_after [] }
    {
        self.last = NamedList::empty();
    }
}

/// The slot of the finger with an id, if the contact of each finger is at the finger's index.
fn slot_of(named: &[Named], now: &[Contact], id: PointerId) -> u8
    ensures { result ≡ slot_of id named.now now.now }
{
    for (i, finger) in named.iter().enumerate() {
        if i >= now.len() {
            return 0;
        }
        if finger.id == id {
            return now[i].slot;
        }
    }
    0
}

/// Gives the fingers of the next packet their ids, and returns the ids that are cancelled in it.
fn name_next(last: &mut NamedList, now: &Contacts) -> Bits32
    ensures last { last.new ≡ named_in last.old now.now }
    ensures cancelled { (k : ℕ) → is_in k result ≡ is_cancelled last.old now.now k }
{
    if are_same(last.as_slice(), now.as_slice()) {
        move_fingers(last, now);
        return Bits32::empty();
    }
    let ids = cancelled(last.as_slice(), now.as_slice());
    *last = named(last.as_slice(), now.as_slice());
    ids
}

/// The fingers of a packet with their ids, given those of the packet before.
fn named(before: &[Named], now: &[Contact]) -> NamedList
    requires before { length before.now ≤ 16 }
    requires now { length now.now ≤ 16 }
    ensures { result ≡ named_in before.now now.now }
{
    let mut taken = ids_of(before);
    let mut named = NamedList::empty();
    for contact in now {
        if !contact.palm {
            let id = id_for(before, &mut taken, contact);
            named.push(name(contact, id));
        }
    }
    named
}

/// The ids of the packet before whose fingers are palms now.
fn cancelled(before: &[Named], now: &[Contact]) -> Bits32
    ensures { (k : ℕ) → is_in k result ≡ is_cancelled before.now now.now k }
{
    if !any_palm(now) {
        return Bits32::empty();
    }
    let mut ids = Bits32::empty();
    for earlier in before {
        if is_palm(now, earlier) {
            ids.mark(earlier.id.get());
        }
    }
    ids
}

/// Whether a contact of the packet is a palm.
fn any_palm(now: &[Contact]) -> bool
    ensures { result ≡ some_palm now.now }
{
    now.iter().any(|c| c.palm)
}

/// Whether a finger of the packet before is a palm now.
fn is_palm(now: &[Contact], earlier: &Named) -> bool
    ensures { result ≡ has_palm now.now earlier.now.tracking }
{
    now.iter().any(|c| c.tracking == earlier.tracking && c.palm)
}

/// The ids of some fingers.
fn ids_of(contacts: &[Named]) -> Bits32
    ensures ids { (k : ℕ) → is_in k result ≡ has_id k contacts.now }
    ensures few { length (members result) ≤ length contacts.now }
{
    let mut ids = Bits32::empty();
    for contact in contacts {
        ids.mark(contact.id.get());
    }
    ids
}

/// The id of a finger, which is taken from then on.
fn id_for(before: &[Named], taken: &mut Bits32, contact: &Contact) -> PointerId
    requires { length (members taken.old) < 32 }
    ensures id { result ≡ id_of before.now (λ k. is_in k taken.old) contact.now.tracking }
    ensures taken { (k : ℕ) → is_in k taken.new ≡ taken_after before.now
        (λ i. is_in i taken.old) contact.now.tracking k }
    ensures few { length (members taken.new) ≤ length (members taken.old) + 1 }
{
    match kept_id(before, contact) {
        Some(id) => id,
        None => {
            let id = free_id(*taken);
            taken.mark(id.get());
            id
        }
    }
}

/// The id that a finger had in the packet before.
fn kept_id(before: &[Named], contact: &Contact) -> Option<PointerId>
    ensures { result ≡ id_in contact.now.tracking before.now }
{
    for earlier in before {
        if earlier.tracking == contact.tracking {
            return Some(earlier.id);
        }
    }
    None
}

/// The least id that is not taken.
fn free_id(taken: Bits32) -> PointerId
    requires { length (members taken) < 32 }
    ensures { result ≡ least_free (λ k. is_in k taken) }
{
    match taken.first_unmarked() {
        None => unreachable!(),
        Some(n) => match PointerId::new(n) {
            None => unreachable!(),
            Some(id) => id,
        },
    }
}

/// Puts the fingers into a list without pointers, in rising id.
fn put_by_id(named: &[Named], pointers: &mut Assigned)
    requires few { length named.now ≤ 16 }
    requires empty { pointers.old.pointers ≡ [] }
    ensures pointers { pointers.new.pointers ≡ assigned named.now }
    ensures cancelled { pointers.new.cancelled ≡ pointers.old.cancelled }
{
    let places = places_of(named);
    for id in 0..32 {
        if pointers.len() == named.len() {
            return;
        }
        if let Some(finger) = with_id(named, &places, id) {
            pointers.push(pointer(&finger));
        }
    }
}

/// The place of the first finger with each id, counted from 1, and 0 where no finger has the id.
fn places_of(named: &[Named]) -> [u8; 32]
    requires { length named.now ≤ 16 }
    ensures len { length result ≡ 32 }
    ensures places { ArePlaces result named.now }
{
    let mut places = [0; 32];
    let mut left = named.len();
    while left > 0 {
        left -= 1;
        places[usize::from(named[left].id.get())] = left as u8 + 1;
    }
    places
}

/// The first finger with this id, by the places of the fingers.
fn with_id(named: &[Named], places: &[u8; 32], id: u8) -> Option<Named>
    requires below { id < 32 }
    requires len { length places.now ≡ 32 }
    requires places { ArePlaces places.now named.now }
    ensures { result ≡ find (λ n. nat_eq n.id id) named.now }
{
    at_place(named, places[usize::from(id)])
}

/// The finger at a place that is counted from 1, and None at 0 and behind the last finger.
fn at_place(named: &[Named], place: u8) -> Option<Named>
    ensures { result ≡ finger_at place named.now }
{
    if place == 0 {
        return None;
    }
    let i = usize::from(place) - 1;
    if i < named.len() {
        Some(named[i])
    } else {
        None
    }
}
