//! Lists of pointers, put together.
ghost use Rattle.std.specs.Prelude.{◌≡◌, ◌+◌, ◌<◌, ◌≤◌, [], ◌∷◌, ◌++◌, length, ◌&&◌};
ghost use Rattle.std.specs.Ordering.{int_eq};
ghost use Rattle.input_types.specs.Gestures.{ids_of, same_ids as ids_agree};
ghost use Rattle.input_types.specs.Pointers.{EndsBelow};
ghost use Rattle.device_reader.specs.TouchMapper.Rising.{Rises};
ghost use Rattle.device_reader.specs.TouchMapper.Gesture.{is_down as is_in, moved as moved_in, moved_all, kept};
ghost use Rattle.device_reader.specs.TouchMapper.Gesture.{is_moved as has_moved, is_changed as have_changed, placed, placed_all};

use crate::pointer_ids::{Assigned, Held};
use crate::touch_mapper::cook::Cook;
use input_types::{Pixel, Pointer, PointerId, Pointers, PushRefused};

/// Puts a pointer behind a list that has room for it.
pub fn append(pointers: &mut Pointers, pointer: &Pointer)
    requires room { length pointers.old < 16 }
    requires rises { EndsBelow pointers.old pointer.now.id }
    ensures { pointers.new ≡ pointers.old ++ pointer.now ∷ [] }
{
    match pointers.push(*pointer) {
        Ok(()) => {}
        Err(PushRefused::Full) => unreachable!(),
        Err(PushRefused::NotRising) => unreachable!(),
    }
}

/// Whether a pointer of the list has this id.
pub fn is_down(pointers: &[Pointer], id: PointerId) -> bool
    ensures { result ≡ is_in id pointers.now }
{
    pointers.iter().any(|p| p.id == id)
}

/// Whether two lists have the same ids.
pub fn same_ids(a: &[Pointer], b: &[Pointer]) -> bool
    ensures { result ≡ ids_agree (ids_of a.now) (ids_of b.now) }
{
    if a.len() != b.len() {
        return false;
    }
    for (i, p) in a.iter().enumerate() {
        if p.id != b[i].id {
            return false;
        }
    }
    true
}

/// The pointers of a list, whose ids rise.
pub fn in_use(pointers: &Pointers) -> &[Pointer]
    ensures value { result.now ≡ pointers.now }
    ensures range { length result.now ≤ 16 }
    ensures rises { Rises result.now }
{
    pointers.as_slice()
}

/// Puts the pointers of a packet at their pixels into a list that has none.
pub fn put_at_pixels(cook: &Cook, held: &Assigned, pointers: &mut Pointers)
    requires { pointers.old ≡ [] }
    ensures { pointers.new ≡ placed_all cook.now held.now.pointers }
{
    for h in held.as_slice() {
        append(pointers, &at_pixel(cook, h));
    }
}

/// A pointer at its pixel.
pub fn at_pixel(cook: &Cook, held: &Held) -> Pointer
    ensures { result ≡ placed cook.now held.now }
{
    Pointer {
        id: held.id,
        at: cook.pixel(held.x, held.y),
    }
}

/// The pointer's position in a list, or else the one that it had.
pub fn moved(now: &[Pointer], pointer: &Pointer) -> Pointer
    ensures { result ≡ moved_in now.now pointer.now }
{
    for p in now {
        if p.id == pointer.id {
            return *p;
        }
    }
    *pointer
}

/// The pointers that were down, those that still are at their new places.
pub fn all_moved(last: &Pointers, now: &Pointers) -> Pointers
    ensures { result ≡ moved_all last.now now.now }
{
    let mut pointers = Pointers::empty();
    for p in in_use(last) {
        append(&mut pointers, &moved(now.as_slice(), p));
    }
    pointers
}

/// A list with some pointers behind it.
pub fn joined(below: &Pointers, above: &[Pointer]) -> Pointers
    requires room { length (below.now ++ above.now) ≤ 16 }
    requires rises { Rises (below.now ++ above.now) }
    ensures { result ≡ below.now ++ above.now }
{
    let mut pointers = *below;
    for p in above {
        append(&mut pointers, p);
    }
    pointers
}

/// A list with those pointers behind it that were down before.
pub fn joined_kept(below: &Pointers, above: &[Pointer], last: &[Pointer]) -> Pointers
    requires room { length (below.now ++ above.now) ≤ 16 }
    requires rises { Rises (below.now ++ above.now) }
    ensures { result ≡ below.now ++ kept last.now above.now }
{
    let mut pointers = *below;
    for p in above {
        if is_down(last, p.id) {
            append(&mut pointers, p);
        }
    }
    pointers
}

/// Whether a pointer that stays down changed its pixel.
pub fn is_changed(last: &[Pointer], now: &[Pointer]) -> bool
    ensures { result ≡ have_changed last.now now.now }
{
    last.iter().any(|p| is_moved(now, p))
}

/// Whether a pointer has another pixel in a list.
fn is_moved(now: &[Pointer], pointer: &Pointer) -> bool
    ensures { result ≡ has_moved now.now pointer.now }
{
    !same_pixel(&moved(now, pointer).at, &pointer.at)
}

/// Whether two pixels are the same.
fn same_pixel(a: &Pixel, b: &Pixel) -> bool
    ensures { result ≡ (int_eq a.now.x b.now.x && int_eq a.now.y b.now.y) }
{
    if a.x != b.x {
        return false;
    }
    a.y == b.y
}
