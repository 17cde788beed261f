//! The names of key codes.
ghost use Rattle.std.specs.Prelude.{◌≡◌, map};
ghost use Rattle.key_layout.specs.KeyNames.{code_in, code_of_name, is_name, is_name_byte};

use crate::NAMES;

fn is_name_byte(b: u8) -> bool
    ensures { result ≡ is_name_byte b }
{
    (b'A' <= b && b <= b'Z') || ((b'0' <= b && b <= b'9') || b == b'_')
}

/// Whether a word contains only capital letters, digits and underscores.
pub(crate) fn is_name(word: &[u8]) -> bool
    ensures { result ≡ is_name word.now }
{
    word.iter().all(|b| is_name_byte(*b))
}

fn code_in(names: &[(&str, u16)], name: &[u8]) -> u16
    ensures { result ≡ code_in (map (λ entry. (entry.0.now, entry.1)) names.now) name.now }
{
    for (known, code) in names {
        if known.as_bytes() == name {
            return *code;
        }
    }
    0
}

/// The code of a name; 0 if the table does not contain it.
#[tactic(auto, unfolding(crate::specs::KeyNames::code_of_name, crate::specs::KeyNames::key_table))]
pub(crate) fn code_of_name(name: &[u8]) -> u16
    ensures { result ≡ code_of_name name.now }
{
    code_in(&NAMES, name)
}
