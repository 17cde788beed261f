//! What a section leaves down.
ghost use Rattle.std.specs.Prelude.{◌≡◌, List, map, Some, None, IfOk, if◌then◌else◌};
ghost use Rattle.bits32.specs.Set.{members};
ghost use Rattle.gesture_verifier.specs.Told.{VerifierStandsFor, state_of};
ghost use Rattle.input_types.specs.declared.message.Message.{Message as Told};
ghost use Rattle.judge_text.specs.Down.{Down, down_after, is_nothing, pointers_up_to};

use bits32::Bits32;
use gesture_verifier::{HeldKey, Verifier};
use input_types::DeviceId;
use std::alloc::{AllocError, Global};
use std::marker::Model;

/// A device, and the pointer ids that are down on it.
#[derive(Clone, Copy, Debug, PartialEq, Eq)]
pub struct HeldIds {
    pub device: DeviceId,
    pub ids: Bits32,
}

/// What is down at the end of a section, in rising order.
#[derive(Debug, Drop)]
pub struct StillDown {
    pointers: Vec<HeldIds>,
    keys: Vec<HeldKey>,
}

impl Model for StillDown {
    ghost use Rattle.std.specs.Prelude.{map};
    ghost use Rattle.bits32.specs.Set.{members};
    ghost use Rattle.judge_text.specs.Down.{Down};

    ghost Value = { Down };

    ghost view = { λ d.
        record { pointers = map (λ h. (h.device, members h.ids)) d.pointers.items; keys = d.keys.items } };
}

impl StillDown {
    ghost use Rattle.std.specs.Prelude.{◌≡◌, map};
    ghost use Rattle.bits32.specs.Set.{members};

    /// The devices on which pointers are down, with the ids of these.
    pub fn pointers(&self) -> &[HeldIds]
        ensures { map (λ h. (h.device, members h.ids)) result.now ≡ self.now.pointers }
    {
        &self.pointers
    }

    /// The keys that are down, by their devices and scan codes.
    pub fn keys(&self) -> &[HeldKey]
        ensures { result.now ≡ self.now.keys }
    {
        &self.keys
    }

    /// Whether nothing is down.
    fn is_nothing(&self) -> bool
        ensures { result ≡ is_nothing self.now }
    {
        self.pointers.is_empty() && self.keys.is_empty()
    }
}

/// The devices on which pointers are down.
fn held_pointers(alloc: Global, verifier: &Verifier) -> Result<Vec<HeldIds>, AllocError>
    ensures { IfOk result (λ held. map (λ h. (h.device, members h.ids)) held.items
        ≡ pointers_up_to 8 (state_of verifier.now).ids) }
{
    let mut held = Vec::new(alloc);
    for number in 0..DeviceId::MAX {
        if let Some(device) = DeviceId::new(number + 1) {
            let ids = verifier.ids_down(device);
            if ids.count() > 0 {
                held.push(HeldIds { device, ids })?;
            }
        }
    }
    Ok(held)
}

/// What is down after the messages that a verifier accepted; None where nothing is.
pub(crate) fn still_down(
    alloc: Global,
    verifier: &Verifier,
) -> Result<Option<StillDown>, AllocError>
    ensures { (past : List Told) → VerifierStandsFor past verifier.now → IfOk result (λ down. down
        ≡ (if is_nothing (down_after past) then None else Some (down_after past))) }
{
    let down = StillDown {
        pointers: held_pointers(alloc, verifier)?,
        keys: verifier.keys_down(alloc)?,
    };
    if down.is_nothing() {
        Ok(None)
    } else {
        Ok(Some(down))
    }
}
