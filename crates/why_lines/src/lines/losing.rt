//! What a window loses.
ghost use Rattle.std.specs.Prelude.{◌≡◌, ◌++◌, ◌==◌, codes, not, map, length, IfOk};
ghost use Rattle.std.specs.List.{list_all};
ghost use Rattle.bits32.specs.Set.{members};
ghost use Rattle.why_text.specs.Lines.{gone_word};
ghost use Rattle.why_text.specs.Lost.{are_some, ids_item, items_word, key_item};
ghost use Rattle.why_text.specs.Text.{line};
ghost use Rattle.why_lines.specs.Lost.{behind_spaces, ids_from, ids_in, items_of};

use crate::lines::line::add_clock;
use crate::lines::sets::add_ids;
use bits32::Bits32;
use input_types::{KeyArgs, Moment};
use std::alloc::AllocError;
use text_lines::{add_labeled, add_word};

/// What a window held and loses: the pointer ids of each device, starting with device 1, and the keys, by rising device
/// and scan code.
#[derive(Clone, Copy)]
pub struct Lost<'a> {
    pub ids: &'a [Bits32],
    pub keys: &'a [KeyArgs],
}

/// Whether all sets are empty.
fn are_empty(sets: &[Bits32]) -> bool
    ensures { result ≡ list_all (λ s. length (members s) == 0) sets.now }
{
    sets.iter().all(|set| set.count() == 0)
}

impl Lost<'_> {
    /// Whether nothing is lost.
    pub fn is_nothing(&self) -> bool
        ensures { result ≡ not (are_some (items_of self.now.ids.now self.now.keys.now)) }
    {
        are_empty(self.ids) && self.keys.is_empty()
    }
}

/// Adds the ids of a device behind a space, if there are any.
fn add_ids_of(text: &mut Vec<u8>, device: u64, ids: Bits32) -> Result<(), AllocError>
    ensures { IfOk result (λ _. text.new.items
        ≡ text.old.items ++ behind_spaces (ids_item device (ids_in ids))) }
{
    if ids.count() == 0 {
        return Ok(());
    }
    add_labeled(text, " ", device)?;
    add_word(text, ":")?;
    add_ids(text, ids)
}

/// Adds the ids of each device behind a space.
fn add_sets(text: &mut Vec<u8>, sets: &[Bits32]) -> Result<(), AllocError>
    ensures { IfOk result (λ _. text.new.items ≡ text.old.items ++ behind_spaces (ids_from 1 sets.now)) }
{
    for (place, ids) in sets.iter().enumerate() {
        add_ids_of(text, place as u64 + 1, *ids)?;
    }
    Ok(())
}

/// Adds a key behind a space.
fn add_key(text: &mut Vec<u8>, key: &KeyArgs) -> Result<(), AllocError>
    ensures { IfOk result (λ _. text.new.items ≡ text.old.items ++ (codes " " ++ key_item key.now)) }
{
    add_labeled(text, " key ", u64::from(key.device.get()))?;
    add_labeled(text, ":", u64::from(key.scan))
}

/// Adds keys, each behind a space.
fn add_keys(text: &mut Vec<u8>, keys: &[KeyArgs]) -> Result<(), AllocError>
    ensures { IfOk result (λ _. text.new.items ≡ text.old.items ++ behind_spaces (map key_item keys.now)) }
{
    for key in keys {
        add_key(text, key)?;
    }
    Ok(())
}

/// Adds what is lost behind a space, or `-` if nothing is, and ends the line.
pub(crate) fn add_lost(text: &mut Vec<u8>, lost: &Lost) -> Result<(), AllocError>
    ensures { IfOk result (λ _. text.new.items
        ≡ text.old.items ++ (codes " " ++ items_word (items_of lost.now.ids.now lost.now.keys.now) ++ codes "\n")) }
{
    if lost.is_nothing() {
        return add_word(text, " -\n");
    }
    add_sets(text, lost.ids)?;
    add_keys(text, lost.keys)?;
    add_word(text, "\n")
}

/// Adds the line of a window that loses something to a new snapshot, or to a new focus.
pub fn gone(text: &mut Vec<u8>, clock: Moment, channel: u32, lost: &Lost) -> Result<(), AllocError>
    ensures { IfOk result (λ _. text.new.items
        ≡ text.old.items
        ++ line clock (gone_word channel (items_word (items_of lost.now.ids.now lost.now.keys.now)))) }
{
    add_clock(text, clock)?;
    add_labeled(text, "gone ", u64::from(channel))?;
    add_lost(text, lost)
}
