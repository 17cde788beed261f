//! The options that words spell.
ghost use Rattle.std.specs.Prelude.{◌≡◌, ◌<◌, ◌⊎◌, ◌==◌, ◌∷◌, [], true, false, IsSome, IfSome, IfNone, map, option_map, string_bytes, length};
ghost use Rattle.command_words.specs.CommandView.{given_view};
ghost use Rattle.command_words.specs.Forms.{all_own, value_of};
ghost use Rattle.command_words.specs.Options.{given_in, has_equals, joined, options_of, stands_in, values_of};

use crate::names::is_own;
use crate::value::is_value;
use help_text::Name;
use std::marker::Model;

/// An option with its value.
#[derive(Clone, Copy)]
pub(crate) struct Given<'a> {
    pub(crate) name: &'a str,
    pub(crate) value: &'a str,
}

/// The option that a word spells by itself, as `NAME=VALUE`.
pub(crate) fn joined(word: &str) -> Option<Given<'_>>
    ensures some { IfSome result (λ g. (has_equals word.now ≡ true) × (given_view g ≡ joined word.now)) }
    ensures none { IfNone result (has_equals word.now ≡ false) }
{
    match word.split_once('=') {
        Some((name, value)) => Some(Given { name, value }),
        None => None,
    }
}

/// The first option of some words, and the words after it. None if there are no words, or if the only one is a name
/// without a value.
fn first_of(words: &[String]) -> Option<(Given<'_>, &[String])>
    ensures some { IfSome result (λ r. options_of (map string_bytes words.now)
        ≡ option_map (λ more. given_view r.0 ∷ more) (options_of (map string_bytes r.1.now))) }
    ensures none { IfNone result ((words.now ≡ []) ⊎ (options_of (map string_bytes words.now) ≡ None)) }
    ensures shorter { IfSome result (λ r. length r.1.now < length words.now) }
{
    let (word, rest) = words.split_first()?;
    match joined(word.as_str()) {
        Some(given) => Some((given, rest)),
        None => {
            let (value, behind) = rest.split_first()?;
            let name = word.as_str();
            let value = value.as_str();
            Some((Given { name, value }, behind))
        }
    }
}

/// The value of the first option with a name, and the words after that option.
fn find<'a>(words: &'a [String], name: &str) -> Option<(&'a str, &'a [String])>
    requires { IsSome (options_of (map string_bytes words.now)) }
    ensures some { IfSome result (λ r. values_of (given_in (map string_bytes words.now)) name.now
        ≡ r.0.now ∷ values_of (given_in (map string_bytes r.1.now)) name.now) }
    ensures spelled { IfSome result (λ r. IsSome (options_of (map string_bytes r.1.now))) }
    ensures none { IfNone result (values_of (given_in (map string_bytes words.now)) name.now ≡ []) }
{
    let mut rest = words;
    'options: while let Some((given, behind)) = first_of(rest) {
        if given.name == name {
            return Some((given.value, behind));
        }
        rest = behind;
    }
    None
}

/// The options that words spell. Contracts see their list.
#[derive(Drop)]
pub(crate) struct Options<'a> {
    words: &'a [String],
}

impl<'a> Model for Options<'a> {
    ghost use Rattle.std.specs.Prelude.{List, IsSome, map, string_bytes};
    ghost use Rattle.command_words.specs.Given.{Given as Element};
    ghost use Rattle.command_words.specs.Options.{given_in, options_of};

    ghost Value = { List Element };

    ghost view = { λ o. given_in (map string_bytes o.words.now) };

    ghost invariant = { λ o. IsSome (options_of (map string_bytes o.words.now)) };
}

impl<'a> Options<'a> {
    /// The options that words spell. None if the last word is a name without a value.
    pub(crate) fn of(words: &'a [String]) -> Option<Options<'a>>
        ensures { result ≡ options_of (map string_bytes words.now) }
    {
        let mut rest = words;
        'options: while !rest.is_empty() {
            match first_of(rest) {
                Some((_, behind)) => rest = behind,
                None => return None,
            }
        }
        Some(Options { words })
    }

    /// Whether all options are the command's own.
    pub(crate) fn all_own(&self, name: Name) -> bool
        ensures { result ≡ all_own name self.now }
    {
        let mut rest = self.words;
        'options: while let Some((given, behind)) = first_of(rest) {
            if !is_own(name, given.name) {
                return false;
            }
            rest = behind;
        }
        true
    }

    /// Whether an option with a name stands.
    pub(crate) fn stands(&self, name: &str) -> bool
        ensures { result ≡ stands_in self.now name.now }
    {
        find(self.words, name).is_some()
    }

    /// The value of the one option with a name. None if no option has the name, or several have, or if it cannot be a
    /// value.
    #[tactic(auto, unfolding(crate::specs::Forms::value_of))]
    pub(crate) fn value(&self, name: &str) -> Option<&'a str>
        ensures { option_map (λ v. v.now) result ≡ value_of self.now name.now }
    {
        let (value, behind) = find(self.words, name)?;
        if find(behind, name).is_some() || !is_value(value) {
            return None;
        }
        Some(value)
    }
}
