//! Which contacts are new, and which ids they may have.
ghost use Rattle.std.specs.Prelude.{◌≡◌, ℕ, ◌+◌, ◌<◌, ◌≤◌, length, List, [], ◌∷◌, ◌++◌};
ghost use Rattle.bits32.specs.Set.{is_in};
ghost use Rattle.touch_writer.specs.Places.{is_held, news as news_of};
ghost use Rattle.touch_writer.specs.Refusal.{is_assignable, unassignable as unassignable_of};

use crate::place::Place;
use crate::want::Want;
use bits32::Bits32;
use input_types::PointerId;
use std::marker::Model;

/// At most 16 new contacts. Contracts see them as a list.
#[derive(Drop)]
pub struct News {
    items: [Want; 16],
    used: usize,
}

impl Model for News {
    ghost use Rattle.std.specs.Prelude.{◌≡◌, ◌≤◌, List, take, length};
    ghost use Rattle.touch_writer.specs.declared.want.Want.{Want as Element};

    ghost Value = { List Element };

    ghost view = { λ n. take n.used n.items };

    ghost invariant = { λ n. (length n.items ≡ 16) × (n.used ≤ 16) };
}

impl News {
    /// No new contact.
    fn none() -> News
        ensures { result ≡ [] }
    {
        let unused = Want {
            id: PointerId::zero(),
            x: 0,
            y: 0,
        };
        News {
            items: [unused; 16],
            used: 0,
        }
    }

    /// The new contacts as a slice.
    pub fn as_slice(&self) -> &[Want]
        ensures value { result.now ≡ self.now }
        ensures range { length result.now ≤ 16 }
    {
        &self.items[..self.used]
    }

    /// Appends a contact to the list.
    fn push(&mut self, contact: Want)
        requires { length self.old < 16 }
        ensures { self.new ≡ self.old ++ contact ∷ [] }
    {
        self.items[self.used] = contact;
        self.used += 1;
    }
}

/// The ids that slots hold.
pub(crate) fn held(places: &[Place]) -> Bits32
    ensures { (i : ℕ) → is_in i result ≡ is_held i places.now }
{
    let mut ids = Bits32::empty();
    for place in places {
        if let Some(touch) = place.holds {
            ids.mark(touch.id.get());
        }
    }
    ids
}

/// The wanted contacts that no slot holds yet.
pub(crate) fn new_contacts(places: &[Place], want: &[Want]) -> News
    requires { length want.now ≤ 16 }
    ensures { result ≡ news_of places.now want.now }
{
    let held = held(places);
    let mut news = News::none();
    for contact in want {
        if !held.has(contact.id.get()) {
            news.push(*contact);
        }
    }
    news
}

/// The ids that slots hold, and this many of the least ones that no slot holds.
fn assignable(places: &[Place], count: usize) -> Bits32
    ensures { (i : ℕ) → i < 32 → is_in i result ≡ is_assignable places.now count i }
{
    let mut ids = held(places);
    let mut left = count;
    for id in 0..32 {
        if left > 0 && !ids.has(id) {
            ids.mark(id);
            left -= 1;
        }
    }
    ids
}

/// The first wanted id that no slot holds and that no new contact may have, if this many contacts are new.
pub(crate) fn unassignable(places: &[Place], count: usize, want: &[Want]) -> Option<PointerId>
    ensures { result ≡ unassignable_of places.now count want.now }
{
    let ids = assignable(places, count);
    for contact in want {
        if !ids.has(contact.id.get()) {
            return Some(contact.id);
        }
    }
    None
}
