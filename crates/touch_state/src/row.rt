//! What each window holds of the device.
ghost use Rattle.std.specs.Prelude.{◌≡◌, ℕ, ◌<◌, ◌≤◌, true, false, ◌==◌, not, ◌&&◌, ◌||◌, if◌then◌else◌};
ghost use Rattle.bits32.specs.Set.{is_in};
ghost use Rattle.window_snapshot.specs.Mask.{is_channel, mask_has};
ghost use Rattle.touch_state.specs.Rows.{no_row, row_of, after_give, left_with, IsTaken, IsSlipped, IsLeastSince, sooner};

use bits32::Bits32;
use input_types::PointerId;
use window_snapshot::{mask_has, mask_with};

/// What a window holds of the device.
#[derive(Clone, Copy, Debug)]
pub(crate) struct Row {
    /// The ids of the pointers that it holds.
    pub(crate) ids: Bits32,
    /// The index of the step at which it last went from holding nothing to holding something.
    pub(crate) since: u64,
}

/// The row of a window that holds nothing, and never did.
pub(crate) fn no_row() -> Row
    ensures { result ≡ no_row }
{
    Row {
        ids: Bits32::empty(),
        since: 0,
    }
}

/// The row after the window may have been given an id at an index.
fn after_give(row: Row, hit: bool, id: PointerId, place: u64) -> Row
    ensures { result ≡ after_give hit id place row }
{
    if !hit {
        return row;
    }
    let since = if row.ids.bits() == 0 {
        place
    } else {
        row.since
    };
    let mut ids = row.ids;
    ids.mark(id.get());
    Row { ids, since }
}

/// The row without an id.
fn lifted(row: Row, id: PointerId) -> Row
    ensures { IsTaken (λ i. i == id) row result }
{
    let mut ids = row.ids;
    ids.clear(id.get());
    Row {
        ids,
        since: row.since,
    }
}

/// The set without a number, if another set contains it.
fn without_one(set: Bits32, ids: Bits32, id: u8) -> Bits32
    requires { id < 32 }
    ensures { (i : ℕ) → is_in i result ≡ (if is_in id ids then not (i == id) && is_in i set else is_in i set) }
{
    let mut rest = set;
    if ids.has(id) {
        rest.clear(id);
    }
    rest
}

/// The numbers of a set that are not in the other.
fn without(set: Bits32, ids: Bits32) -> Bits32
    ensures { (i : ℕ) → is_in i result ≡ (is_in i set && not (is_in i ids)) }
{
    let mut rest = set;
    for id in 0..32 {
        rest = without_one(rest, ids, id);
    }
    rest
}

/// The row of a window.
pub(crate) fn row_at(rows: &[Row; 64], channel: u32) -> Row
    requires { is_channel channel ≡ true }
    ensures { result ≡ row_of rows.now channel }
{
    rows[channel as usize - 1]
}

/// Sets the row of a window.
fn put(rows: &mut [Row; 64], channel: u32, row: Row)
    requires { is_channel channel ≡ true }
    ensures { (w : ℕ) → row_of rows.new w ≡ (if w == channel then row else row_of rows.old w) }
{
    rows[channel as usize - 1] = row;
}

/// Gives an id to one window at an index, and takes it from another.
pub(crate) fn slip(rows: &mut [Row; 64], from: u32, to: u32, id: PointerId, place: u64)
    requires from_is { is_channel from ≡ true }
    requires to_is { is_channel to ≡ true }
    ensures { (w : ℕ) → IsSlipped (w == from) (w == to) id place (row_of rows.old w) (row_of rows.new w) }
{
    let row = after_give(row_at(rows, to), true, id, place);
    if from != to {
        let left = lifted(row_at(rows, from), id);
        put(rows, from, left);
    }
    put(rows, to, row);
}

/// Removes a set of ids from one window.
pub(crate) fn remove(rows: &mut [Row; 64], channel: u32, ids: Bits32)
    requires { is_channel channel ≡ true }
    ensures { (w : ℕ) → IsTaken (λ i. w == channel && is_in i ids) (row_of rows.old w) (row_of rows.new w) }
{
    let row = row_at(rows, channel);
    let left = without(row.ids, ids);
    put(
        rows,
        channel,
        Row {
            ids: left,
            since: row.since,
        },
    );
}

/// Takes everything from every window.
pub(crate) fn empty_all(rows: &mut [Row; 64])
    ensures { (w : ℕ) → row_of rows.new w ≡ left_with 0 (row_of rows.old w) }
{
    for row in rows.iter_mut() {
        row.ids = Bits32::empty();
    }
}

/// The highest window of a mask.
pub(crate) fn top_of(mask: u64) -> usize
    ensures above { (w : ℕ) → result < w → mask_has mask w ≡ false }
    ensures few { result ≤ 64 }
{
    64 - mask.leading_zeros() as usize
}

/// Gives an id to each window of a mask, at an index; the mask has no windows above the top.
pub(crate) fn give_all(rows: &mut [Row; 64], to: u64, id: PointerId, place: u64, top: usize)
    requires few { top ≤ 64 }
    requires above { (w : ℕ) → top < w → mask_has to w ≡ false }
    ensures { (w : ℕ) → row_of rows.new w ≡ after_give (mask_has to w) id place (row_of rows.old w) }
{
    for k in 0..top {
        rows[k] = after_give(rows[k], mask_has(to, k as u32 + 1), id, place);
    }
}

/// Takes an id from every window; no window above the top holds anything.
pub(crate) fn lift_all(rows: &mut [Row; 64], id: PointerId, top: usize)
    requires few { top ≤ 64 }
    requires above { (w : ℕ) → top < w → (row_of rows.old w).ids ≡ 0 }
    ensures { (w : ℕ) → IsTaken (λ i. i == id) (row_of rows.old w) (row_of rows.new w) }
{
    for k in 0..top {
        rows[k] = lifted(rows[k], id);
    }
}

/// The mask, with the window of this channel added if it holds something.
fn noted(holders: u64, channel: u32, row: Row) -> u64
    requires { is_channel channel ≡ true }
    ensures { (w : ℕ) → mask_has result w ≡ (mask_has holders w || (w == channel && not (row.ids == 0))) }
{
    if row.ids.bits() == 0 {
        holders
    } else {
        mask_with(holders, channel)
    }
}

/// The mask of the windows that hold something; none above the top does.
pub(crate) fn holders_of(rows: &[Row; 64], top: usize) -> u64
    requires few { top ≤ 64 }
    requires above { (w : ℕ) → top < w → (row_of rows.now w).ids ≡ 0 }
    ensures { (w : ℕ) → mask_has result w ≡ not ((row_of rows.now w).ids == 0) }
{
    let mut holders = 0;
    for k in 0..top {
        holders = noted(holders, k as u32 + 1, rows[k]);
    }
    holders
}

/// The least index at which one of the windows of a mask began; None exactly if the mask is empty.
pub(crate) fn least_since(rows: &[Row; 64], hits: u64) -> Option<u64>
    ensures { IsLeastSince rows.now hits 64 result }
{
    let top = top_of(hits);
    let mut least = None;
    for k in 0..top {
        least = sooner(least, mask_has(hits, k as u32 + 1), rows[k]);
    }
    least
}

/// The lesser of an index and that of a row, if the window of the row counts.
fn sooner(least: Option<u64>, hit: bool, row: Row) -> Option<u64>
    ensures { result ≡ sooner hit row.since least }
{
    if !hit {
        return least;
    }
    match least {
        Some(place) => {
            if row.since < place {
                Some(row.since)
            } else {
                Some(place)
            }
        }
        None => Some(row.since),
    }
}

/// The mask of those windows of a mask that began at an index.
pub(crate) fn began_at(rows: &[Row; 64], hits: u64, place: u64) -> u64
    ensures { (w : ℕ) → mask_has result w ≡ (mask_has hits w && (row_of rows.now w).since == place) }
{
    let top = top_of(hits);
    let mut began = 0;
    for k in 0..top {
        let channel = k as u32 + 1;
        began = with_one(
            began,
            channel,
            mask_has(hits, channel),
            rows[k].since == place,
        );
    }
    began
}

/// The mask, with a window added if both conditions hold.
fn with_one(mask: u64, channel: u32, hit: bool, began: bool) -> u64
    requires { is_channel channel ≡ true }
    ensures { (w : ℕ) → mask_has result w ≡ (mask_has mask w || (w == channel && (hit && began))) }
{
    if hit && began {
        mask_with(mask, channel)
    } else {
        mask
    }
}
