//! What is wrong with words that are of no form.
ghost use Rattle.std.specs.Prelude.{◌≡◌, IfNone, [], map, option_map, string_bytes, take};
ghost use Rattle.std.specs.List.{list_all};
ghost use Rattle.command_words.specs.Fault.{fault_of, given_fault, is_hyphened, is_long, is_printed, missing_fault, option_fault, options_fault, shown, stood, unknown_word, value_fault};
ghost use Rattle.command_words.specs.FaultView.{fault_view, spelled_view, value_view};
ghost use Rattle.command_words.specs.Names.{needed_of};
ghost use Rattle.command_words.specs.Spelled.{spelled_of};

use crate::names::{asks_help, is_own, named, needed_of, page_of};
use crate::spelled::{Spelled, Value, next_spelled};
use crate::value::takes;
use help_text::Name;

/// What is wrong with words, with the word, the option, or the option and its value that is at fault.
#[derive(Clone, Copy, Debug)]
pub enum Fault<'a> {
    /// There is no word.
    NoCommand,
    /// The first word names no command.
    UnknownCommand(&'a str),
    /// A word stands where an option is due and is none of the command's. Only what stands before its first `=`, if
    /// it begins with `--`.
    UnknownOption(&'a str),
    /// The option stood before.
    Twice(&'a str),
    /// The option has no value.
    NoValue(&'a str),
    /// The option does not take its value.
    BadValue(&'a str, &'a str),
    /// The command needs the option, and it does not stand.
    Missing(&'a str),
}

/// Whether a text begins with two hyphens.
fn is_long(text: &str) -> bool
    ensures { result ≡ is_long text.now }
{
    match text.as_bytes() {
        [first, second, ..] => *first == b'-' && *second == b'-',
        _ => false,
    }
}

/// Whether a text begins with a hyphen.
fn is_hyphened(text: &str) -> bool
    ensures { result ≡ is_hyphened text.now }
{
    match text.as_bytes() {
        [first, ..] => *first == b'-',
        [] => false,
    }
}

/// The word of an option that is not known.
fn unknown_word<'a>(s: &Spelled<'a>) -> &'a str
    ensures { result.now ≡ unknown_word (spelled_view s.now) }
{
    if is_long(s.word) { s.name } else { s.word }
}

/// What is wrong with a value that is there.
fn value_fault<'a>(name: &'a str, value: &'a str) -> Option<Fault<'a>>
    ensures { option_map fault_view result ≡ value_fault name.now value.now }
{
    if takes(name, value) {
        None
    } else {
        Some(Fault::BadValue(name, value))
    }
}

/// What is wrong with the value of an option.
fn given_fault<'a>(name: &'a str, value: Value<'a>) -> Option<Fault<'a>>
    ensures { option_map fault_view result ≡ given_fault name.now (value_view value.entry) }
{
    match value {
        Value::Absent => Some(Fault::NoValue(name)),
        Value::Attached(value) => {
            if value.is_empty() {
                Some(Fault::NoValue(name))
            } else {
                value_fault(name, value)
            }
        }
        Value::Next(value) => {
            if is_hyphened(value) {
                Some(Fault::NoValue(name))
            } else {
                value_fault(name, value)
            }
        }
    }
}

/// Whether an option with a name is among the first `count` that words spell.
fn stood(words: &[String], count: usize, name: &str) -> bool
    ensures { result ≡ stood (take count (spelled_of (map string_bytes words.now))) name.now }
{
    let mut rest = words;
    let mut left = count;
    'options: while left > 0 {
        let Some((s, behind)) = next_spelled(rest) else {
            return false;
        };
        if s.name == name {
            return true;
        }
        rest = behind;
        left -= 1;
    }
    false
}

/// What is wrong with an option of a command, behind the first `count` that words spell.
fn option_fault<'a>(
    name: Name,
    words: &[String],
    count: usize,
    s: &Spelled<'a>,
) -> Option<Fault<'a>>
    ensures { option_map fault_view result
        ≡ option_fault name (take count (spelled_of (map string_bytes words.now))) (spelled_view s.now) }
{
    if !is_own(name, s.name) {
        Some(Fault::UnknownOption(unknown_word(s)))
    } else if stood(words, count, s.name) {
        Some(Fault::Twice(s.name))
    } else {
        given_fault(s.name, s.value)
    }
}

/// The first of some options that is not among the first `count` that words spell.
fn missing_fault(words: &[String], count: usize, options: &[&'static str]) -> Option<Fault<'static>>
    ensures { option_map fault_view result
        ≡ missing_fault (take count (spelled_of (map string_bytes words.now))) (map (λ o. o.now) options.now) }
{
    for option in options {
        if !stood(words, count, option) {
            return Some(Fault::Missing(option));
        }
    }
    None
}

/// The first fault of the options of a command.
fn options_fault(name: Name, words: &[String]) -> Option<Fault<'_>>
    ensures { option_map fault_view result ≡ options_fault name [] (spelled_of (map string_bytes words.now)) }
{
    let mut rest = words;
    let mut count = 0;
    'options: while let Some((s, behind)) = next_spelled(rest) {
        if let Some(fault) = option_fault(name, words, count, &s) {
            return Some(fault);
        }
        rest = behind;
        count += 1;
    }
    missing_fault(words, count, needed_of(name))
}

/// What is wrong with words. None if they are of a form.
#[tactic(auto, unfolding(crate::specs::Fault::fault_of))]
pub fn fault_of(words: &[String]) -> Option<Fault<'_>>
    ensures { option_map fault_view result ≡ fault_of (map string_bytes words.now) }
{
    let Some((word, rest)) = words.split_first() else {
        return Some(Fault::NoCommand);
    };
    if rest.is_empty() && page_of(word.as_str()).is_some() {
        return None;
    }
    match named(word.as_str()) {
        None => Some(Fault::UnknownCommand(word.as_str())),
        Some(name) => {
            if asks_help(rest) {
                None
            } else {
                options_fault(name, rest)
            }
        }
    }
}

/// Whether all bytes can stand in a line.
fn is_printed(bytes: &[u8]) -> bool
    ensures { result ≡ list_all is_printed bytes.now }
{
    bytes.iter().all(|b| 33 <= *b && *b <= 126)
}

/// A word as a line shows it: as its bytes if it has 1 to 64 of them, each `!` to `~`, else as `?`.
#[tactic(auto, unfolding(crate::specs::Fault::shown))]
pub fn shown(word: &str) -> &str
    ensures { result.now ≡ shown word.now }
{
    let bytes = word.as_bytes();
    if 1 <= bytes.len() && bytes.len() <= 64 && is_printed(bytes) {
        word
    } else {
        "?"
    }
}
