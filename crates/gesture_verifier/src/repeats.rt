//! The repeats of keys.
ghost use Rattle.std.specs.Prelude.{◌≡◌, ◌<◌, ℕ, true, IsTrue, OnErr, OnOk, cond};
ghost use Rattle.std.specs.Ordering.{nat_cmp, is_eq};
ghost use Rattle.input_types.specs.StreamRule.{after_key};
ghost use Rattle.gesture_verifier.specs.Told.{are_places, due_at, is_of_device, key_place};

use input_types::{KeyArgs, KeyMsg};
use pointers_down::ends;
use std::alloc::AllocError;
use std::collections::BTreeMap;

/// What is due for a key after one of its messages, if `due` was due before: the next repeat number, or None if the key
/// is up. The result is None if the message is not allowed.
pub fn next_repeat(due: Option<u64>, message: &KeyMsg) -> Option<Option<u64>>
    ensures { result ≡ after_key due message.now }
{
    if message.key.down {
        let due = due.unwrap_or(0);
        let next = u64::from(message.repeat);
        if message.flags == 0 && due == next {
            Some(Some(next + 1))
        } else {
            None
        }
    } else if due.is_some() && ends(message.flags) && message.repeat == 0 {
        Some(None)
    } else {
        None
    }
}

/// The index of a key among those of all devices: the keys of one device stand together.
pub fn place(key: &KeyArgs) -> u32
    ensures place { result ≡ key_place key.now.device key.now.scan }
    ensures key { IsTrue (is_of_device key.now.device key.now.scan) }
    ensures range { result < 524288 }
{
    let scan = key.scan;
    u32::from(key.device.get() - 1) * 65536 + u32::from(scan)
}

/// The next repeat number of the key at a place, or None if it is up.
pub fn due(table: &BTreeMap<u32, u64>, place: u32) -> Option<u64>
    ensures { result ≡ due_at table.now.entries place }
{
    table.get(&place).copied()
}

/// Keeps what is due for the key at a place, and nothing for a key that is up.
pub fn keep(table: &mut BTreeMap<u32, u64>, place: u32, due: Option<u64>) -> Result<(), AllocError>
    requires { place < 524288 }
    ensures kept { OnOk result
        ((q : ℕ) → due_at table.new.entries q ≡ cond (is_eq (nat_cmp place q)) due (due_at table.old.entries q)) }
    ensures places { are_places table.old.entries ≡ true → are_places table.new.entries ≡ true }
    ensures err { OnErr result (table.new.entries ≡ table.old.entries) }
{
    match due {
        Some(next) => {
            table.insert(place, next)?;
        }
        None => {
            table.remove(&place);
        }
    }
    Ok(())
}
