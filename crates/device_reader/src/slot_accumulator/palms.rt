//! The tracking ids of palms.
ghost use Rattle.std.specs.Prelude.{◌≡◌};
ghost use Rattle.device_reader.specs.SlotAccumulator.Table.{is_kept};

use input_types::short_list::ShortList;

/// The tracking ids of the palms of a packet, at most one a slot.
pub(crate) type Palms = ShortList<i32>;

/// Whether this tracking id is one of them.
pub(crate) fn is_kept(palms: &Palms, tracking: i32) -> bool
    ensures { result ≡ is_kept palms.now tracking }
{
    palms.as_slice().iter().any(|t| *t == tracking)
}
