//! The keys that are down in a window.
ghost use Rattle.std.specs.Prelude.{◌≡◌, true, length, ◌+◌, ◌≤◌, ◌<◌, ◌==◌, ◌++◌};
ghost use Rattle.std.specs.Prelude.{OnOk, OnErr, IsOk, vec_len, vec_capacity};
ghost use Rattle.input_types.specs.declared.key.KeyMsg.{KeyMsg as Kept};
ghost use Rattle.dispatcher.specs.CancelSynthesis.Tracked.{same_key, is_before, is_at, with_key, without_key, keys_before};
ghost use Rattle.dispatcher.specs.CancelSynthesis.Ends.{key_cancelled, keys_cancelled, of_device, keys_sent};

use input_types::{Body, DeviceId, FLAG_CANCELED, KeyArgs, KeyMsg};
use std::alloc::AllocError;

/// Whether two keys are the same: the same scan code of the same device.
fn same_key(a: &KeyArgs, b: &KeyArgs) -> bool
    ensures { result ≡ same_key a.now b.now }
{
    a.device == b.device && a.scan == b.scan
}

/// Whether a key comes before another: by device, and then by scan code.
fn is_before(a: &KeyArgs, b: &KeyArgs) -> bool
    ensures { result ≡ is_before a.now b.now }
{
    let (first, second) = (a.device.get(), b.device.get());
    first < second || first == second && a.scan < b.scan
}

/// The number of keys before a key.
fn keys_before(keys: &[KeyMsg], key: &KeyArgs) -> usize
    ensures { result ≡ keys_before key.now keys.now }
{
    for (place, kept) in keys.iter().enumerate() {
        if !is_before(&kept.key, key) {
            return place;
        }
    }
    keys.len()
}

/// Whether the key is at an index.
fn is_at(keys: &[KeyMsg], place: usize, key: &KeyArgs) -> bool
    ensures within { result ≡ true → place < length keys.now }
    ensures same { (d : Kept) → result ≡ is_at key.now keys.now place d }
{
    place < keys.len() && same_key(&keys[place].key, key)
}

/// Inserts a key message in its place, replacing an earlier message of the key.
pub(crate) fn keep(keys: &mut Vec<KeyMsg>, message: &KeyMsg) -> Result<(), AllocError>
    ensures items { OnOk result (keys.new.items ≡ with_key message.now keys.old.items) }
    ensures len { OnOk result (vec_len keys.new ≤ vec_len keys.old + 1) }
    ensures capacity { vec_capacity keys.old ≤ vec_capacity keys.new }
    ensures err { OnErr result (keys.new.items ≡ keys.old.items) }
    ensures err_len { OnErr result (vec_len keys.new ≡ vec_len keys.old) }
    ensures reserved { vec_len keys.old < vec_capacity keys.old → IsOk result }
{
    let place = keys_before(keys, &message.key);
    if is_at(keys, place, &message.key) {
        keys[place] = *message;
        return Ok(());
    }
    keys.insert(place, *message)?;
    Ok(())
}

/// Removes the message of a key.
pub(crate) fn forget(keys: &mut Vec<KeyMsg>, message: &KeyMsg)
    ensures items { keys.new.items ≡ without_key message.now keys.old.items }
    ensures len { vec_len keys.new ≤ vec_len keys.old }
    ensures capacity { vec_capacity keys.old ≤ vec_capacity keys.new }
{
    keys.retain(|kept| !same_key(&message.key, &kept.key));
}

/// The cancelled up of a key.
pub(crate) fn key_cancelled(message: &KeyMsg) -> KeyMsg
    ensures { result ≡ key_cancelled message.now }
{
    let key = KeyArgs {
        device: message.key.device,
        scan: message.key.scan,
        code: message.key.code,
        meta: message.key.meta,
        down: false,
    };
    KeyMsg {
        key,
        flags: FLAG_CANCELED,
        repeat: 0,
    }
}

/// Fills a list with the cancelled ups of these keys. It allocates nothing if the list has room for all of them.
pub(crate) fn cancel_keys_into(out: &mut Vec<KeyMsg>, keys: &[KeyMsg]) -> Result<(), AllocError>
    ensures ok { OnOk result (out.new.items ≡ keys_cancelled keys.now) }
    ensures capacity { vec_capacity out.old ≤ vec_capacity out.new }
    ensures reserved { length keys.now ≤ vec_capacity out.old → IsOk result }
{
    out.clear();
    out.reserve(keys.len())?;
    for kept in keys {
        out.push_reserved(key_cancelled(kept));
    }
    Ok(())
}

/// Fills a list with the cancelled ups of those of these keys that belong to a device.
pub(crate) fn cancel_device_keys_into(
    out: &mut Vec<KeyMsg>,
    keys: &[KeyMsg],
    device: DeviceId,
) -> Result<(), AllocError>
    ensures ok { OnOk result (out.new.items ≡ keys_cancelled (of_device device keys.now)) }
    ensures capacity { vec_capacity out.old ≤ vec_capacity out.new }
    ensures reserved { length keys.now ≤ vec_capacity out.old → IsOk result }
{
    out.clear();
    out.reserve(keys.len())?;
    for kept in keys {
        if kept.key.device == device {
            out.push_reserved(key_cancelled(kept));
        }
    }
    Ok(())
}

/// Adds the cancelled ups of these keys to a list.
pub(crate) fn cancel_each_key(out: &mut Vec<Body>, keys: &[KeyMsg]) -> Result<(), AllocError>
    ensures { OnOk result (out.new.items ≡ out.old.items ++ keys_sent keys.now) }
{
    for kept in keys {
        out.push(Body::Key(key_cancelled(kept)))?;
    }
    Ok(())
}
