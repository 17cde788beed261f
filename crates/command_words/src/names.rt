//! The names of the commands, and the options of each.
ghost use Rattle.std.specs.Prelude.{◌≡◌, map, string_bytes};
ghost use Rattle.command_words.specs.Names.{asks_help, extra_of, is_among, is_own, named, needed_of, page_of};

use help_text::{Name, Page};

/// The options of a session and a recording.
const RECORDED: &[&str] = &["--session", "--events"];

/// The command with a name.
#[tactic(auto, unfolding(crate::specs::Names::named))]
pub(crate) fn named(word: &str) -> Option<Name>
    ensures { result ≡ named word.now }
{
    match word {
        "replay" => Some(Name::Replay),
        "race" => Some(Name::Race),
        "check" => Some(Name::Check),
        "verify" => Some(Name::Verify),
        "work" => Some(Name::Work),
        "batch" => Some(Name::Batch),
        "hover" => Some(Name::Hover),
        "emit" => Some(Name::Emit),
        "inspect" => Some(Name::Inspect),
        "why" => Some(Name::Why),
        "judge" => Some(Name::Judge),
        "compare" => Some(Name::Compare),
        _ => None,
    }
}

/// The options that a command needs, in the order of its form.
pub(crate) fn needed_of(name: Name) -> &'static [&'static str]
    ensures { map (λ o. o.now) result.now ≡ needed_of name }
{
    match name {
        Name::Replay | Name::Race | Name::Inspect | Name::Why => RECORDED,
        Name::Check => &["--session", "--events", "--order"],
        Name::Verify | Name::Judge => &["--stream"],
        Name::Work => &["--seed", "--packets"],
        Name::Batch => &["--stream", "--frame"],
        Name::Hover => &["--session", "--events", "--mouse"],
        Name::Emit => &["--stream", "--channel", "--device"],
        Name::Compare => &["--want", "--got", "--us", "--pixels"],
    }
}

/// The options that a command takes besides.
fn extra_of(name: Name) -> &'static [&'static str]
    ensures { map (λ o. o.now) result.now ≡ extra_of name }
{
    match name {
        Name::Compare => &["--want-channel", "--got-channel", "--moves"],
        _ => &[],
    }
}

/// Whether an option is one of some names.
fn is_among(option: &str, names: &[&str]) -> bool
    ensures { result ≡ is_among option.now (map (λ o. o.now) names.now) }
{
    for name in names {
        if option == *name {
            return true;
        }
    }
    false
}

/// Whether an option is the command's own.
pub(crate) fn is_own(name: Name, option: &str) -> bool
    ensures { result ≡ is_own name option.now }
{
    is_among(option, needed_of(name)) || is_among(option, extra_of(name))
}

/// The page that a word asks for, if it is the only word.
#[tactic(auto, unfolding(crate::specs::Names::page_of))]
pub(crate) fn page_of(word: &str) -> Option<Page>
    ensures { result ≡ page_of word.now }
{
    if word == "--help" || word == "-h" || word == "help" {
        Some(Page::Help)
    } else if word == "--version" {
        Some(Page::Version)
    } else {
        None
    }
}

/// Whether the words behind a command ask for its help.
pub(crate) fn asks_help(words: &[String]) -> bool
    ensures { result ≡ asks_help (map string_bytes words.now) }
{
    match words {
        [word] => word.as_str() == "--help" || word.as_str() == "-h",
        _ => false,
    }
}
