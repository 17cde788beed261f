//! Keys that go down or up, or are repeated.
ghost use Rattle.std.specs.Prelude.{◌≡◌, ◌++◌, IfOk};
ghost use Rattle.why_text.specs.Lines.{key_down_word, key_up_word, key_words, repeat_word};
ghost use Rattle.why_text.specs.Text.{line};

use crate::lines::line::{add_clock, add_device};
use crate::lines::sets::add_channel;
use input_types::{KeyArgs, KeyMsg, Moment};
use std::alloc::AllocError;
use text_lines::{add_labeled, add_number, add_word};

/// Adds a key by its device and its scan code.
fn add_key(text: &mut Vec<u8>, key: &KeyArgs) -> Result<(), AllocError>
    ensures { IfOk result (λ _. text.new.items ≡ text.old.items ++ key_words key.now) }
{
    add_device(text, "key ", key.device)?;
    add_number(text, u64::from(key.scan))
}

/// Adds the line of a key that goes down, with the key target and the window that comes to hold it.
pub fn key_down(
    text: &mut Vec<u8>,
    clock: Moment,
    key: &KeyArgs,
    target: Option<u32>,
    given: Option<u32>,
) -> Result<(), AllocError>
    ensures { IfOk result (λ _. text.new.items
        ≡ text.old.items ++ line clock (key_down_word key.now target given)) }
{
    add_clock(text, clock)?;
    add_key(text, key)?;
    add_word(text, " down target ")?;
    add_channel(text, target)?;
    add_word(text, " given ")?;
    add_channel(text, given)?;
    add_word(text, "\n")
}

/// Adds the line of a key that goes up, with the window that held it.
pub fn key_up(
    text: &mut Vec<u8>,
    clock: Moment,
    key: &KeyArgs,
    from: Option<u32>,
) -> Result<(), AllocError>
    ensures { IfOk result (λ _. text.new.items ≡ text.old.items ++ line clock (key_up_word key.now from)) }
{
    add_clock(text, clock)?;
    add_key(text, key)?;
    add_word(text, " up from ")?;
    add_channel(text, from)?;
    add_word(text, "\n")
}

/// Adds the line of a key that is repeated for the window that holds it.
pub fn repeat(
    text: &mut Vec<u8>,
    clock: Moment,
    message: &KeyMsg,
    window: u32,
) -> Result<(), AllocError>
    ensures { IfOk result (λ _. text.new.items ≡ text.old.items ++ line clock (repeat_word message.now window)) }
{
    add_clock(text, clock)?;
    add_key(text, &message.key)?;
    add_labeled(text, " repeat ", u64::from(message.repeat))?;
    add_labeled(text, " to ", u64::from(window))?;
    add_word(text, "\n")
}
