//! What the value of an option must be.
ghost use Rattle.std.specs.Prelude.{◌≡◌, ◌==◌, ◌||◌, not};
ghost use Rattle.std.specs.List.{list_all};
ghost use Rattle.command_words.specs.Value.{fits, is_path, is_value, moves, takes};

use crate::number::number;

/// Whether a text can be a value: it is not empty and does not begin with `-`.
pub(crate) fn is_value(text: &str) -> bool
    ensures { result ≡ is_value text.now }
{
    match text.as_bytes() {
        [first, ..] => *first != b'-',
        [] => false,
    }
}

/// Whether no byte is a space or a tab.
fn has_no_blank(bytes: &[u8]) -> bool
    ensures { result ≡ list_all (λ c. not (c == 32 || c == 9)) bytes.now }
{
    bytes.iter().all(|c| !(*c == b' ' || *c == b'\t'))
}

/// Whether a text begins with a slash and has no space or tab.
pub(crate) fn is_path(text: &str) -> bool
    ensures { result ≡ is_path text.now }
{
    match text.as_bytes() {
        [first, rest @ ..] => *first == b'/' && has_no_blank(rest),
        [] => false,
    }
}

/// Whether each move is a point: `each` or `none`.
#[tactic(auto, unfolding(crate::specs::Value::moves))]
pub(crate) fn moves(text: &str) -> Option<bool>
    ensures { result ≡ moves text.now }
{
    match text {
        "each" => Some(true),
        "none" => Some(false),
        _ => None,
    }
}

/// Whether the option with a name takes a text that can be a value.
#[tactic(auto, unfolding(crate::specs::Value::fits))]
fn fits(name: &str, value: &str) -> bool
    ensures { result ≡ fits name.now value.now }
{
    match name {
        "--seed" => number(0, 4_294_967_295, value).is_some(),
        "--packets" => number(1, 200_000, value).is_some(),
        "--frame" => number(1, 1_000_000_000, value).is_some(),
        "--mouse" => is_path(value),
        "--channel" => number(1, 64, value).is_some(),
        "--device" => number(1, 8, value).is_some(),
        "--us" => number(0, 1_000_000_000, value).is_some(),
        "--pixels" => number(0, 16_384, value).is_some(),
        "--want-channel" => number(1, 64, value).is_some(),
        "--got-channel" => number(1, 64, value).is_some(),
        "--moves" => moves(value).is_some(),
        _ => true,
    }
}

/// Whether the option with a name takes a value.
#[tactic(auto, unfolding(crate::specs::Value::takes))]
pub(crate) fn takes(name: &str, value: &str) -> bool
    ensures { result ≡ takes name.now value.now }
{
    is_value(value) && fits(name, value)
}
