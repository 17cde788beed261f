//! What the key target is sent for a dispatched key, and what is kept for its repeats.
ghost use Rattle.std.specs.Prelude.{◌≡◌};
ghost use Rattle.std.specs.List.{list_any};
ghost use Rattle.dispatch_history.specs.Keys.{same_key};
ghost use Rattle.dispatcher.specs.KeyTables.Held.{sent_for_key};
ghost use Rattle.dispatcher.specs.KeyTables.Repeats.{repeat_after};

use input_types::{KeyArgs, KeyMsg, Moment};
use key_repeat::Repeat;

/// What a window is sent for a dispatched key: a down, if it gets keys, and an up of a key that it holds.
pub fn sent_for_key(key: &KeyArgs, gets: bool, held: &[KeyMsg]) -> Option<KeyMsg>
    ensures { result ≡ sent_for_key key.now gets held.now }
{
    let is_sent = if key.down { gets } else { holds(held, key) };
    if is_sent {
        Some(KeyMsg {
            key: *key,
            flags: 0,
            repeat: 0,
        })
    } else {
        None
    }
}

/// Records that the key target was sent these key messages, at this clock after the step.
pub fn remember(repeat: &mut Repeat, channel: u32, outgoing: &[KeyMsg], clock: Moment)
    ensures { repeat.new ≡ repeat_after clock channel outgoing.now repeat.old }
{
    'messages: for message in outgoing {
        if message.key.down {
            repeat.sent(channel, *message, clock);
        } else {
            repeat.stop();
        }
    }
}

/// Whether the key is among those that are kept.
fn holds(held: &[KeyMsg], key: &KeyArgs) -> bool
    ensures { result ≡ list_any (λ m. same_key key.now m.key) held.now }
{
    held.iter().any(|kept| key.device == kept.key.device && key.scan == kept.key.scan)
}
