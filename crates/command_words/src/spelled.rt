//! How words spell options, one by one.
ghost use Rattle.std.specs.Prelude.{◌≡◌, ◌<◌, ◌∷◌, [], IfSome, IfNone, map, string_bytes, length};
ghost use Rattle.command_words.specs.FaultView.{spelled_view};
ghost use Rattle.command_words.specs.Spelled.{spelled_of};

use crate::options::joined;

/// Where the value of an option stands.
#[derive(Clone, Copy)]
pub(crate) enum Value<'a> {
    /// Nowhere: no word is left.
    Absent,
    /// In the option's word, behind the `=`.
    Attached(&'a str),
    /// In the next word.
    Next(&'a str),
}

/// An option as it is spelled.
#[derive(Clone, Copy)]
pub(crate) struct Spelled<'a> {
    pub(crate) word: &'a str,
    pub(crate) name: &'a str,
    pub(crate) value: Value<'a>,
}

/// The first option of some words, and the words after it. None if there are no words.
pub(crate) fn next_spelled(words: &[String]) -> Option<(Spelled<'_>, &[String])>
    ensures some { IfSome result (λ r. spelled_of (map string_bytes words.now)
        ≡ spelled_view r.0 ∷ spelled_of (map string_bytes r.1.now)) }
    ensures none { IfNone result (words.now ≡ []) }
    ensures shorter { IfSome result (λ r. length r.1.now < length words.now) }
{
    let (first, rest) = words.split_first()?;
    let word = first.as_str();
    if let Some(given) = joined(word) {
        let (name, value) = (given.name, Value::Attached(given.value));
        return Some((Spelled { word, name, value }, rest));
    }
    let name = word;
    match rest.split_first() {
        Some((next, behind)) => {
            let value = Value::Next(next.as_str());
            Some((Spelled { word, name, value }, behind))
        }
        None => {
            let value = Value::Absent;
            Some((Spelled { word, name, value }, rest))
        }
    }
}
