//! The ids of the pointers that windows hold, as rows of sets: one set for each device, that of device 1 first.
ghost use Rattle.std.specs.Prelude.{◌≡◌, ◌≤◌, ◌<◌, ◌+◌, ◌-◌, ◌&&◌, ◌==◌, ℕ, Bool, [], true, not, flat_map, slice_index_or, if◌then◌else◌};
ghost use Rattle.bits32.specs.Set.{is_in};
ghost use Rattle.window_snapshot.specs.Mask.{is_channel};
ghost use Rattle.routing_rules.specs.Outgoing.{devices};
ghost use Rattle.route_split.specs.Tables.{holds_at};
ghost use Rattle.why_text.specs.Lost.{ids_item};
ghost use Rattle.why_text.specs.Words.{ids_that};
ghost use Rattle.why_lines.specs.Lost.{ids_from};
ghost use Rattle.why_lines.specs.Rows.{RowIs};

use bits32::Bits32;
use input_types::DeviceId;
use route_split::Touches;

/// The ids of the pointers of a device that a window holds.
fn held_by(touches: &Touches, window: u32, device: u8) -> Bits32
    requires number { is_channel window ≡ true }
    requires low { 1 ≤ device }
    requires high { device ≤ 8 }
    ensures { (i : ℕ) → is_in i result ≡ holds_at touches.now window device i }
{
    match DeviceId::new(device) {
        Some(device) => touches.held(window, device),
        None => Bits32::empty(),
    }
}

/// The ids of the pointers that a window holds, of each device.
pub(crate) fn row_of(touches: &Touches, window: u32) -> [Bits32; 8]
    requires { is_channel window ≡ true }
    ensures sets { RowIs (holds_at touches.now window) result }
    ensures items { ids_from 1 result ≡ flat_map (λ d. ids_item d (ids_that (holds_at touches.now window d))) devices }
{
    let first = held_by(touches, window, 1);
    let second = held_by(touches, window, 2);
    let third = held_by(touches, window, 3);
    let fourth = held_by(touches, window, 4);
    let fifth = held_by(touches, window, 5);
    let sixth = held_by(touches, window, 6);
    let seventh = held_by(touches, window, 7);
    let eighth = held_by(touches, window, 8);
    [first, second, third, fourth, fifth, sixth, seventh, eighth]
}

/// The rows of the windows 1 to 64, that of window 1 first.
pub(crate) fn rows_of(touches: &Touches) -> [[Bits32; 8]; 64]
    ensures { (k : ℕ) → k < 64 → RowIs (holds_at touches.now (k + 1)) (slice_index_or result k []) }
{
    let mut rows = [[Bits32::empty(); 8]; 64];
    for k in 0..64 {
        rows[k] = row_of(touches, k as u32 + 1);
    }
    rows
}

/// The set without a number, if `goes` says so.
fn less_one(set: Bits32, id: u8, goes: bool) -> Bits32
    requires { id < 32 }
    ensures { (i : ℕ) → is_in i result ≡ (if goes then not (i == id) && is_in i set else is_in i set) }
{
    let mut rest = set;
    if goes {
        rest.clear(id);
    }
    rest
}

/// The numbers of a set that are not in another set.
fn less(set: Bits32, other: Bits32) -> Bits32
    ensures { (i : ℕ) → is_in i result ≡ (is_in i set && not (is_in i other)) }
{
    let mut rest = set;
    for id in 0..32 {
        rest = less_one(rest, id, other.has(id));
    }
    rest
}

/// The ids of a device in the row of a window that the window no longer holds.
fn ids_gone(row: &[Bits32; 8], touches: &Touches, window: u32, device: u8) -> Bits32
    requires number { is_channel window ≡ true }
    requires low { 1 ≤ device }
    requires high { device ≤ 8 }
    ensures { (i : ℕ) → is_in i result
        ≡ (is_in i (slice_index_or row.now (device - 1) 0) && not (holds_at touches.now window device i)) }
{
    less(
        row[usize::from(device) - 1],
        held_by(touches, window, device),
    )
}

/// The ids in the row of a window that the window no longer holds, for each device.
pub(crate) fn row_gone(row: &[Bits32; 8], touches: &Touches, window: u32) -> [Bits32; 8]
    requires { is_channel window ≡ true }
    ensures { (held : ℕ → ℕ → Bool) → RowIs held row.now
        → ids_from 1 result
        ≡ flat_map (λ d. ids_item d (ids_that (λ i. held d i && not (holds_at touches.now window d i)))) devices }
{
    let first = ids_gone(row, touches, window, 1);
    let second = ids_gone(row, touches, window, 2);
    let third = ids_gone(row, touches, window, 3);
    let fourth = ids_gone(row, touches, window, 4);
    let fifth = ids_gone(row, touches, window, 5);
    let sixth = ids_gone(row, touches, window, 6);
    let seventh = ids_gone(row, touches, window, 7);
    let eighth = ids_gone(row, touches, window, 8);
    [first, second, third, fourth, fifth, sixth, seventh, eighth]
}
