//! The pointers of a motion, which are often those of the motion before.
ghost use Rattle.std.specs.Prelude.{◌≡◌, ◌+◌, ◌*◌, ◌<◌, ◌≤◌, ◌++◌, [], true, IsTrue, length, drop, get_or, map, slice_set};
ghost use Rattle.input_types.specs.Pointers.{unused};
ghost use Rattle.dispatcher.specs.InputChannel.Moves.{counted_from};
ghost use Rattle.stream_text.specs.KeptText.{Holds};
ghost use Rattle.stream_text.specs.Spelling.{pointer, pointers};

use crate::writing::prepend::{ROOM, Room, prepend_number, prepend_signed, prepend_word};
use dispatcher::input_channel::place_from;
use input_types::{DeviceId, Pixel, Pointer, Pointers};

/// The pointers whose text stands at the end of the place, in front of a newline.
#[derive(Drop)]
pub(crate) struct KeptPointers {
    pub(crate) list: Pointers,
    /// Where their text begins.
    pub(crate) at: usize,
    /// The device whose Move with these flags stands there with them, or 0 where no such Move does.
    pub(crate) moves: u8,
    pub(crate) flags: u32,
    /// Where the text of that Move begins.
    pub(crate) front: usize,
}

#[inline(always)]
#[tactic(auto, unfolding(crate::specs::Spelling::pointer))]
fn prepend_pointer(line: &mut Room, end: usize, id: u8, x: i32, y: i32) -> usize
    requires { (80 ≤ end) × (end ≤ 1280) }
    ensures within { (result ≤ end) × (end ≤ result + 66) }
    ensures written { drop result line.new ≡ pointer id x y ++ drop end line.old }
{
    let at = prepend_signed(line, end, y);
    let at = prepend_word(line, at, ",");
    let at = prepend_signed(line, at, x);
    let at = prepend_word(line, at, "@");
    let at = prepend_number(line, at, u64::from(id));
    prepend_word(line, at, " ")
}

#[inline(always)]
fn prepend_pointers(line: &mut Room, end: usize, list: &[Pointer]) -> usize
    requires { (66 * length list.now + 14 ≤ end) × (end ≤ 1280) }
    ensures within { (result ≤ end) × (end ≤ result + 66 * length list.now) }
    ensures written { drop result line.new ≡ pointers list.now ++ drop end line.old }
{
    let mut at = end;
    let mut left = list.len();
    while left > 0 {
        left -= 1;
        let p = list[left];
        at = prepend_pointer(line, at, p.id.get(), p.at.x, p.at.y);
    }
    at
}

/// Whether two lists of pointers are the same.
#[inline(always)]
fn are_same(old: &[Pointer], list: &[Pointer]) -> bool
    ensures { IsTrue result → old.now ≡ list.now }
{
    if old.len() != list.len() {
        return false;
    }
    let mut left = list.len();
    while left > 0 {
        left -= 1;
        if old[left] != list[left] {
            return false;
        }
    }
    true
}

/// Whether two lists of pointers have the same ids.
#[inline(always)]
fn have_ids(old: &[Pointer], list: &[Pointer]) -> bool
    ensures { IsTrue result → map (λ p. p.id) old.now ≡ map (λ p. p.id) list.now }
{
    if old.len() != list.len() {
        return false;
    }
    let mut left = list.len();
    while left > 0 {
        left -= 1;
        if old[left].id != list[left].id {
            return false;
        }
    }
    true
}

/// Moves a kept pointer to a position, and returns whether it was there already.
#[inline(always)]
fn move_one(kept: &mut Pointers, i: usize, at: Pixel) -> bool
    requires { i < length kept.old }
    ensures list { kept.new ≡ slice_set kept.old i (record { id = (get_or kept.old i unused).id; at = at }) }
    ensures same { result ≡ true → kept.new ≡ kept.old }
{
    if kept.as_slice()[i].at == at {
        return true;
    }
    kept.move_to(i, at);
    false
}

/// Moves kept pointers to the positions of a list with the same ids, counted from an origin, and returns whether all
/// were there already.
#[inline(always)]
fn move_all(kept: &mut Pointers, list: &[Pointer], origin: Pixel) -> bool
    requires { map (λ p. p.id) kept.old ≡ map (λ p. p.id) list.now }
    ensures list { kept.new ≡ counted_from origin list.now }
    ensures same { result ≡ true → kept.new ≡ kept.old }
{
    let mut same = true;
    for i in 0..list.len() {
        let at = place_from(origin, list[i].at);
        let stays = move_one(kept, i, at);
        same = same && stays;
    }
    same
}

impl KeptPointers {
    /// No pointers, and where the newline stands.
    pub(crate) fn none() -> KeptPointers
        ensures list { result.list ≡ [] }
        ensures at { result.at ≡ 1279 }
        ensures moves { result.moves ≡ 0 }
    {
        KeptPointers {
            list: Pointers::empty(),
            at: ROOM - 1,
            moves: 0,
            flags: 0,
            front: 0,
        }
    }

    /// Writes the newline alone at the end of the buffer, and returns where it stands.
    pub(crate) fn put_none(&mut self, line: &mut Room) -> usize
        ensures at { result ≡ 1279 }
        ensures kept { self.new.at ≡ 1279 }
        ensures moves { self.new.moves ≡ 0 }
        ensures holds { Holds line.new self.new.list self.new.at }
    {
        *self = KeptPointers::none();
        prepend_word(line, ROOM, "\n")
    }

    /// Whether these pointers are kept.
    #[inline(always)]
    pub(crate) fn has(&self, list: &Pointers) -> bool
        ensures { IsTrue result → self.now.list ≡ list.now }
    {
        are_same(self.list.as_slice(), list.as_slice())
    }

    /// Whether a Move of this device with these flags stands there.
    #[inline(always)]
    pub(crate) fn is_move(&self, device: DeviceId, flags: u32) -> bool
        ensures { IsTrue result → (self.now.moves ≡ device) × (self.now.flags ≡ flags) × (1 ≤ self.now.moves) }
    {
        self.moves == device.get() && self.flags == flags
    }

    /// Writes pointers and the newline at the end of the buffer, and returns where they begin.
    #[inline(always)]
    pub(crate) fn put_anew(&mut self, line: &mut Room, list: &Pointers) -> usize
        ensures at { result ≡ self.new.at }
        ensures list { self.new.list ≡ list.now }
        ensures moves { self.new.moves ≡ self.old.moves }
        ensures holds { Holds line.new self.new.list self.new.at }
    {
        let at = prepend_word(line, ROOM, "\n");
        let at = prepend_pointers(line, at, list.as_slice());
        self.list = *list;
        self.at = at;
        at
    }

    /// Keeps these pointers with their positions counted from an origin, and returns whether they were kept already.
    #[inline(always)]
    pub(crate) fn set_from(&mut self, list: &Pointers, origin: Pixel) -> bool
        ensures list { self.new.list ≡ counted_from origin list.now }
        ensures same { result ≡ true → self.new ≡ self.old }
        ensures but_for_list { self.new ≡ record self.old { list = self.new.list } }
    {
        if !have_ids(self.list.as_slice(), list.as_slice()) {
            self.list = *list;
            move_all(&mut self.list, list.as_slice(), origin);
            return false;
        }
        move_all(&mut self.list, list.as_slice(), origin)
    }

    /// Writes the kept pointers and the newline at the end of the buffer, and returns where they begin.
    #[inline(always)]
    pub(crate) fn put_again(&mut self, line: &mut Room) -> usize
        ensures at { result ≡ self.new.at }
        ensures but_for_at { self.new ≡ record self.old { at = self.new.at } }
        ensures holds { Holds line.new self.new.list self.new.at }
    {
        let at = prepend_word(line, ROOM, "\n");
        let at = prepend_pointers(line, at, self.list.as_slice());
        self.at = at;
        at
    }

    /// Writes pointers and the newline at the end of the buffer if others stand there, and returns where they begin. No
    /// Move is kept any more.
    #[inline(always)]
    pub(crate) fn put(&mut self, line: &mut Room, list: &Pointers) -> usize
        requires { Holds line.old self.old.list self.old.at }
        ensures at { result ≡ self.new.at }
        ensures list { self.new.list ≡ list.now }
        ensures moves { self.new.moves ≡ 0 }
        ensures holds { Holds line.new self.new.list self.new.at }
    {
        self.moves = 0;
        if self.has(list) {
            return self.at;
        }
        self.put_anew(line, list)
    }
}
