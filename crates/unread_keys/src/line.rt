//! The line of a key.
ghost use Rattle.std.specs.Prelude.{◌≡◌, ◌++◌, ◌&&◌, nat_le, IfOk, decimal};
ghost use Rattle.std.specs.List.{list_all};
ghost use Rattle.unread_keys.specs.Lines.{is_plain, key_line, spelled};

use crate::place::{Place, add_place};
use itoa::Buffer;
use std::alloc::AllocError;

/// A word, as it is.
pub(crate) fn add_word(text: &mut Vec<u8>, word: &str) -> Result<(), AllocError>
    ensures { IfOk result (λ _. text.new.items ≡ text.old.items ++ word.now) }
{
    text.extend_from_slice(word.as_bytes())
}

/// A number in decimal digits.
pub(crate) fn add_number(text: &mut Vec<u8>, number: usize) -> Result<(), AllocError>
    ensures { IfOk result (λ _. text.new.items ≡ text.old.items ++ decimal number) }
{
    let mut buffer = Buffer::new();
    text.extend_from_slice(buffer.format(number as u64).as_bytes())
}

/// Whether each byte is one from `!` to `~`.
fn are_graphic(bytes: &[u8]) -> bool
    ensures { result ≡ list_all (λ b. nat_le 33 b && nat_le b 126) bytes.now }
{
    bytes.iter().all(|b| b'!' <= *b && *b <= b'~')
}

/// Whether a key has bytes, each of them from `!` to `~`.
fn is_plain(key: &[u8]) -> bool
    ensures { result ≡ is_plain key.now }
{
    key.len() > 0 && are_graphic(key)
}

/// A key as it is if it is plain, and otherwise `?`.
fn add_key(text: &mut Vec<u8>, key: &str) -> Result<(), AllocError>
    ensures { IfOk result (λ _. text.new.items ≡ text.old.items ++ spelled key.now) }
{
    if is_plain(key.as_bytes()) {
        add_word(text, key)
    } else {
        add_word(text, "?")
    }
}

/// The line of a key that nothing reads.
pub(crate) fn add_line(text: &mut Vec<u8>, place: Place, key: &str) -> Result<(), AllocError>
    ensures { IfOk result (λ _. text.new.items ≡ text.old.items ++ key_line place key.now) }
{
    add_word(text, "key ")?;
    add_place(text, place)?;
    add_key(text, key)?;
    add_word(text, "\n")
}
