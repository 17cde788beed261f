//! Pointers, found by their ids.
ghost use Rattle.std.specs.Prelude.{◌≡◌, ℕ, ◌==◌};
ghost use Rattle.std.specs.List.{list_any};
ghost use Rattle.bits32.specs.Set.{is_in};
ghost use Rattle.routing_rules.specs.Outgoing.{listing};

use bits32::Bits32;
use input_types::Pointers;
use std::marker::Model;

/// The pointers of a motion. Each is found by its id without looking at the others.
#[derive(Drop)]
pub struct PointersById<'a> {
    pointers: &'a Pointers,
    /// Their ids.
    ids: Bits32,
}

impl<'a> Model for PointersById<'a> {
    ghost use Rattle.std.specs.Prelude.{◌≡◌, ℕ, ◌==◌, List};
    ghost use Rattle.std.specs.List.{list_any};
    ghost use Rattle.bits32.specs.Set.{is_in};
    ghost use Rattle.input_types.specs.declared.pointer.Pointer.{Pointer as Element};

    ghost Value = { List Element };

    ghost view = { λ p. p.pointers.now };

    ghost invariant = { λ p. (i : ℕ) → is_in i p.ids ≡ list_any (λ q. q.id == i) p.pointers.now };
}

/// The ids of these pointers.
pub fn ids_of(pointers: &Pointers) -> Bits32
    ensures { (i : ℕ) → is_in i result ≡ list_any (λ p. p.id == i) pointers.now }
{
    let mut ids = Bits32::empty();
    for pointer in pointers.as_slice() {
        ids.mark(pointer.id.get());
    }
    ids
}

impl<'a> PointersById<'a> {
    /// These pointers.
    pub fn new(pointers: &'a Pointers) -> PointersById<'a>
        ensures { result ≡ pointers.now }
    {
        PointersById {
            pointers,
            ids: ids_of(pointers),
        }
    }

    /// Whether some of them have ids in the set.
    #[inline(always)]
    pub fn has_some(&self, set: Bits32) -> bool
        ensures { result ≡ list_any (λ p. is_in p.id set) self.now }
    {
        self.ids.bits() & set.bits() != 0
    }

    /// Fills a list with the pointers whose ids are in the set, in the same order.
    #[inline(always)]
    pub fn part_into(&self, set: Bits32, listed: &mut Pointers)
        ensures { listed.new ≡ listing (λ i. is_in i set) self.now }
    {
        *listed = Pointers::empty();
        let pointers = self.pointers.as_slice();
        let mut rest = self.ids.bits() & set.bits();
        while rest != 0 {
            let id = rest.trailing_zeros() as u8;
            let place = self.ids.index_of(id) as usize;
            listed.put(pointers[place]);
            rest &= rest - 1;
        }
    }
}
