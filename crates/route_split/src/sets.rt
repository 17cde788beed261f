//! Sets of ids.
ghost use Rattle.std.specs.Prelude.{◌≡◌, ℕ, ◌<◌, ◌==◌, ◌&&◌, ◌||◌, not, if◌then◌else◌};
ghost use Rattle.bits32.specs.Set.{is_in};

use bits32::Bits32;
use input_types::PointerId;

/// Whether a set contains an id.
pub(crate) fn has_id(set: Bits32, id: PointerId) -> bool
    ensures { result ≡ is_in id set }
{
    set.has(id.get())
}

/// The set with an id added.
pub(crate) fn with_id(set: Bits32, id: PointerId) -> Bits32
    ensures { (i : ℕ) → is_in i result ≡ (i == id || is_in i set) }
{
    let mut more = set;
    more.mark(id.get());
    more
}

/// The set without an id.
pub(crate) fn without_id(set: Bits32, id: PointerId) -> Bits32
    ensures { (i : ℕ) → is_in i result ≡ (not (i == id) && is_in i set) }
{
    let mut rest = set;
    rest.clear(id.get());
    rest
}

/// The set without a number, if another set contains it.
fn without_one(set: Bits32, ids: Bits32, id: u8) -> Bits32
    requires { id < 32 }
    ensures { (i : ℕ) → is_in i result ≡ (if is_in id ids then not (i == id) && is_in i set else is_in i set) }
{
    let mut rest = set;
    if ids.has(id) {
        rest.clear(id);
    }
    rest
}

/// The numbers of a set that are not in another.
pub(crate) fn without(set: Bits32, ids: Bits32) -> Bits32
    ensures { (i : ℕ) → is_in i result ≡ (is_in i set && not (is_in i ids)) }
{
    let mut rest = set;
    for id in 0..32 {
        rest = without_one(rest, ids, id);
    }
    rest
}

/// The same, for sets that are mostly equal.
pub(crate) fn lost_of(before: Bits32, later: Bits32) -> Bits32
    ensures { (i : ℕ) → is_in i result ≡ (is_in i before && not (is_in i later)) }
{
    if before.bits() == later.bits() {
        return Bits32::empty();
    }
    without(before, later)
}
