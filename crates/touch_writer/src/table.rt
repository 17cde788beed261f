//! The slots that give a packet the fewest events.
ghost use Rattle.std.specs.Prelude.{◌≡◌, ℕ, ◌+◌, ◌-◌, ◌<◌, ◌≤◌, List, ◌∷◌, length, take, drop, get_or};
ghost use Rattle.std.specs.Prelude.{Bool, nat_lt, nat_le, ◌||◌};
ghost use Rattle.touch_writer.specs.Packet.{said, changes};
ghost use Rattle.touch_writer.specs.Choice.{placed as placed_by};
ghost use Rattle.touch_writer.specs.Search.{cost as cost_of, free as free_of, best, chosen, IsBest, IsRow, blank};
ghost use Rattle.bits32.specs.Set.{is_in};
ghost use Rattle.touch_writer.specs.declared.place.Place.{Place as Held};

use crate::place::{Place, arrives, empty_place, kept, remains, tracking};
use crate::want::Want;
use bits32::Bits32;

/// The choice for the slots from one on that gives them the fewest events, and how many these are.
#[derive(Clone, Copy)]
pub struct Best {
    pub events: u32,
    pub slots: Bits32,
}

/// What the contacts and slots of a packet are.
#[derive(Clone, Copy)]
pub struct Case<'a> {
    pub want: &'a [Want],

    /// The wanted contacts that no slot holds.
    pub news: &'a [Want],

    /// The tracking id of the first new contact.
    pub next: u32,
    pub current: usize,
}

/// How often a value is written: once if it changes, otherwise never.
fn says(old: i32, new: i32) -> u32
    ensures value { (code : ℕ) → result ≡ length (said code old new) }
    ensures small { result ≤ 1 }
{
    if old == new { 0 } else { 1 }
}

/// How many changes a slot has.
fn count_changes(old: &Place, new: &Place) -> u32
    ensures value { result ≡ length (changes old.now new.now) }
    ensures small { result ≤ 3 }
{
    says(tracking(old), tracking(new)) + says(old.x, new.x) + says(old.y, new.y)
}

/// How many events a slot has.
fn cost(current: usize, slot: usize, old: &Place, new: &Place) -> u32
    ensures value { result ≡ cost_of current slot old.now new.now }
    ensures small { result ≤ 4 }
{
    let changes = count_changes(old, new);
    if slot == current {
        return changes;
    }
    if changes == 0 { 0 } else { changes + 1 }
}

/// Whether a new contact takes a slot that is free for it: it must, or taking it costs no more events.
fn comes_first(free: usize, left: usize, here: u32, later: u32) -> bool
    ensures { result ≡ (nat_lt free left || nat_le here later) }
{
    free < left || here <= later
}

/// The best choice for the slots from `slot` on if the last `left` new contacts remain, given the choices for the
/// slots after it, of which `free` hold no kept contact.
fn entry(
    case: &Case,
    slot: usize,
    place: &Place,
    free: usize,
    rest: &[Best; 17],
    left: usize,
) -> Best
    requires left { left ≤ length case.now.news.now }
    requires few { length case.now.news.now ≤ 16 }
    requires slot { slot < 16 }
    requires next { case.now.next + length case.now.news.now ≤ 2147483647 }
    requires small { (k : ℕ) → k ≤ 16 → (get_or rest.now k blank).events ≤ 60 }
    ensures best { (behind : List Held) → free ≡ free_of case.now.want.now behind
        → IsRow rest.now case.now.want.now case.now.current (slot + 1) behind case.now.news.now case.now.next
        (length case.now.news.now + 1)
        → IsBest result case.now.want.now case.now.current slot (place.now ∷ behind)
        (drop (length case.now.news.now - left) case.now.news.now)
        (case.now.next + (length case.now.news.now - left)) }
{
    let later = Best {
        events: cost(case.current, slot, place, &remains(case.want, place)) + rest[left].events,
        slots: rest[left].slots,
    };
    if left == 0 || kept(case.want, place).is_some() {
        return later;
    }
    let at = case.news.len() - left;
    let new = arrives(&case.news[at], case.next + at as u32);
    let mut slots = rest[left - 1].slots;
    slots.mark(slot as u8);
    let here = Best {
        events: cost(case.current, slot, place, &new) + rest[left - 1].events,
        slots,
    };
    if comes_first(free, left, here.events, later.events) {
        here
    } else {
        later
    }
}

/// The best choices for the slots from `slot` on.
fn row(case: &Case, slot: usize, place: &Place, free: usize, rest: &[Best; 17]) -> [Best; 17]
    requires few { length case.now.news.now ≤ 16 }
    requires slot { slot < 16 }
    requires next { case.now.next + length case.now.news.now ≤ 2147483647 }
    requires small { (k : ℕ) → k ≤ 16 → (get_or rest.now k blank).events ≤ 60 }
    ensures best { (behind : List Held) → free ≡ free_of case.now.want.now behind
        → IsRow rest.now case.now.want.now case.now.current (slot + 1) behind case.now.news.now case.now.next
        (length case.now.news.now + 1)
        → IsRow result case.now.want.now case.now.current slot (place.now ∷ behind) case.now.news.now case.now.next
        (length case.now.news.now + 1) }
    ensures others { (k : ℕ) → length case.now.news.now < k → get_or result k blank ≡ blank }
{
    let mut row = [blank_entry(); 17];
    for left in 0..case.news.len() + 1 {
        row[left] = entry(case, slot, place, free, rest, left);
    }
    row
}

/// The content of a row that is not filled yet.
fn blank_entry() -> Best
    ensures { result ≡ blank }
{
    Best {
        events: 0,
        slots: Bits32::empty(),
    }
}

/// The choice that has the fewest events, and among those with as few the one with the least list of slots.
pub(crate) fn choose(case: &Case, places: &[Place]) -> Bits32
    requires few { length case.now.news.now ≤ 16 }
    requires slots { length places.now ≤ 16 }
    requires next { case.now.next + length case.now.news.now ≤ 2147483647 }
    ensures { chosen result 0 places.now
        ≡ best case.now.want.now case.now.current 0 places.now case.now.news.now case.now.next }
{
    let mut rest = [blank_entry(); 17];
    let mut free = 0;
    let mut slot = places.len();
    while slot > 0 {
        slot -= 1;
        let place = &places[slot];
        rest = row(case, slot, place, free, &rest);
        if kept(case.want, place).is_none() {
            free += 1;
        }
    }
    rest[case.news.len()].slots
}

/// What a slot holds after a choice, and how many new contacts have their slots then.
fn place_behind(
    case: &Case,
    slot: usize,
    place: &Place,
    slots: Bits32,
    come: usize,
) -> (Place, usize)
    requires slot { slot < 16 }
    requires few { length case.now.news.now ≤ 16 }
    requires come { come ≤ length case.now.news.now }
    requires next { case.now.next + length case.now.news.now ≤ 2147483647 }
    ensures place { (behind : List Held) (cs : List Bool)
        → placed_by case.now.want.now (place.now ∷ behind) (is_in slot slots ∷ cs)
        (drop come case.now.news.now) (case.now.next + come)
        ≡ result.0 ∷ placed_by case.now.want.now behind cs
        (drop result.1 case.now.news.now) (case.now.next + result.1) }
    ensures come { result.1 ≤ length case.now.news.now }
{
    if slots.has(slot as u8) && come < case.news.len() {
        return (arrives(&case.news[come], case.next + come as u32), come + 1);
    }
    (remains(case.want, place), come)
}

/// What the slots hold after a choice.
pub(crate) fn placed(case: &Case, places: &[Place], slots: Bits32) -> [Place; 16]
    requires few { length case.now.news.now ≤ 16 }
    requires slots { length places.now ≤ 16 }
    requires next { case.now.next + length case.now.news.now ≤ 2147483647 }
    ensures placed { take (length places.now) result
        ≡ placed_by case.now.want.now places.now (chosen slots 0 places.now)
        case.now.news.now case.now.next }
    ensures whole { length result ≡ 16 }
{
    let mut after = [empty_place(); 16];
    let mut come = 0;
    for slot in 0..places.len() {
        let (place, next) = place_behind(case, slot, &places[slot], slots, come);
        after[slot] = place;
        come = next;
    }
    after
}
