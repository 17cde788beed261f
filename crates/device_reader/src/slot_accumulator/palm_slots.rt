//! Which slots of a device hold palms.
ghost use Rattle.std.specs.Prelude.{◌≡◌, ◌≤◌, ◌<◌, [], ◌∷◌, ◌++◌, ℤ, pos, true, false, not, ◌&&◌, ◌||◌, int_le, length, nat_eq, if◌then◌else◌};
ghost use Rattle.std.specs.List.{list_any};
ghost use Rattle.std.specs.Ordering.{int_eq};
ghost use Rattle.device_reader.specs.SlotAccumulator.Table.{is_kept};
ghost use Rattle.device_reader.specs.SlotAccumulator.SlotContacts.{has_palm_tool, palm_below, row_in};

use crate::slot_accumulator::palms::{Palms, is_kept};
use crate::slot_accumulator::slots::Row;
use raw_events::codes::{ABS_MT_TOOL_TYPE, MT_TOOL_PALM};

/// Whether some slot has the tool type of a palm, after an event with this code was written to these slots.
pub(crate) fn tool_after(code: u16, before: bool, rows: &[Row]) -> bool
    ensures { result ≡ (if nat_eq code 55 then list_any (λ r. has_palm_tool r) rows.now else before) }
{
    if code == ABS_MT_TOOL_TYPE {
        any_tool(rows)
    } else {
        before
    }
}

/// Records the tracking ids of the palms among the contacts of some slots, given those of the packet before. Nothing
/// changes if there are none.
pub(crate) fn note_palms(rows: &[Row], palm_tool: bool, noted: &mut Palms)
    requires few { length rows.now ≤ 16 }
    requires tool { palm_tool ≡ false → list_any (λ r. has_palm_tool r) rows.now ≡ false }
    ensures noted { (tracking : ℤ) → is_kept noted.new tracking ≡ palm_below (row_in rows.now)
        (λ t. is_kept noted.old t) (length rows.now) tracking }
    ensures same { (nat_eq (length noted.old) 0 && not palm_tool) ≡ true → noted.new ≡ noted.old }
{
    if no_palm(palm_tool, noted) {
        return;
    }
    *noted = palms(rows, noted);
}

/// Whether no slot can hold a palm: there was none before, and no tool type is that of a palm.
pub(crate) fn no_palm(palm_tool: bool, before: &Palms) -> bool
    ensures { result ≡ (nat_eq (length before.now) 0 && not palm_tool) }
{
    before.len() == 0 && !palm_tool
}

/// The tracking ids of the palms among the contacts of some slots, given those of the packet before.
#[inline(never)]
fn palms(rows: &[Row], before: &Palms) -> Palms
    requires { length rows.now ≤ 16 }
    ensures { (tracking : ℤ) → is_kept result tracking ≡ palm_below (row_in rows.now)
        (λ t. is_kept before.now t) (length rows.now) tracking }
{
    let mut palms = Palms::empty();
    for (slot, row) in rows.iter().enumerate() {
        if is_palm(row, rows.split_at(slot).0, before) {
            note(&mut palms, row);
        }
    }
    palms
}

/// Whether the tool type of a slot is that of a palm.
fn any_tool(rows: &[Row]) -> bool
    ensures { result ≡ list_any (λ r. has_palm_tool r) rows.now }
{
    rows.iter().any(|r| r.tool == MT_TOOL_PALM)
}

/// Notes the tracking id of a slot.
fn note(palms: &mut Palms, row: &Row)
    requires { length palms.old < 16 }
    ensures { palms.new ≡ palms.old ++ row.now.tracking ∷ [] }
{
    palms.push(row.tracking);
}

/// Whether a slot holds a contact that is a palm, given the lower slots and the palms of the packet before.
fn is_palm(row: &Row, lower: &[Row], before: &Palms) -> bool
    ensures { result ≡ ((has_palm_tool row.now || is_kept before.now row.now.tracking)
        && (int_le (pos 0) row.now.tracking && not (list_any (λ r. int_eq r.tracking row.now.tracking) lower.now))) }
{
    (row.tool == MT_TOOL_PALM || is_kept(before, row.tracking))
        && (row.tracking >= 0 && !any_has(lower, row.tracking))
}

/// Whether a slot of some has this tracking id.
fn any_has(rows: &[Row], tracking: i32) -> bool
    ensures { result ≡ list_any (λ r. int_eq r.tracking tracking) rows.now }
{
    rows.iter().any(|r| r.tracking == tracking)
}
