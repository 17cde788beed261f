//! The keys that are read of each kind of table.
ghost use Rattle.std.specs.Prelude.{◌≡◌, map};
ghost use Rattle.toml.specs.View.{view};
ghost use Rattle.unread_keys.specs.Names.{device_kind, is_among, is_read, is_word, step_kind};

use toml::Value;

/// The kinds of tables by what is read of them.
#[derive(Clone, Copy)]
pub(crate) enum Kind {
    Top,
    Display,
    Touch,
    Keys,
    Channel,
    Windows,
    Focus,
    Pilfer,
    Remove,
    Window,
}

/// The keys that are read of a table, as docs/SESSION.md has them.
pub(crate) fn is_read(kind: Kind, key: &str) -> bool
    ensures { result ≡ is_read kind key.now }
{
    match kind {
        Kind::Top => is_one_of(
            &[
                "display",
                "extra_display",
                "end_us",
                "repeat_us",
                "repeat",
                "device",
                "channel",
                "step",
            ],
            key,
        ),
        Kind::Display => is_one_of(&["width", "height", "rotation"], key),
        Kind::Touch => is_one_of(&["kind", "path", "display", "slots", "x", "y"], key),
        Kind::Keys => is_one_of(&["kind", "path", "layout"], key),
        Kind::Channel => is_one_of(&["name", "limit_ms", "finish_after_us", "finishes"], key),
        Kind::Windows => is_one_of(&["at_us", "lane", "do", "windows"], key),
        Kind::Focus => is_one_of(&["at_us", "lane", "do", "display", "channel"], key),
        Kind::Pilfer => is_one_of(&["at_us", "lane", "do", "channel", "device"], key),
        Kind::Remove => is_one_of(&["at_us", "lane", "do", "channel"], key),
        Kind::Window => is_one_of(
            &[
                "wall",
                "channel",
                "display",
                "frame",
                "region",
                "flags",
                "owner",
                "opacity",
                "occlusion",
            ],
            key,
        ),
    }
}

/// Whether a key is one of these.
fn is_one_of(names: &[&str], key: &str) -> bool
    ensures { result ≡ is_among key.now (map (λ n. n.now) names.now) }
{
    for name in names {
        if key == *name {
            return true;
        }
    }
    false
}

/// Whether this word stands at a key.
pub(crate) fn is_word(table: &Value, key: &str, word: &str) -> bool
    ensures { result ≡ is_word key.now word.now (view table.now) }
{
    let Some(value) = table.get(key) else {
        return false;
    };
    match value.as_str() {
        Some(text) => text == word,
        None => false,
    }
}

/// The kind of a device's table.
pub(crate) fn device_kind(table: &Value) -> Kind
    ensures { result ≡ device_kind (view table.now) }
{
    if is_word(table, "kind", "touch") {
        Kind::Touch
    } else {
        Kind::Keys
    }
}

/// The kind of a step's table.
pub(crate) fn step_kind(table: &Value) -> Kind
    ensures { result ≡ step_kind (view table.now) }
{
    if is_word(table, "do", "windows") {
        Kind::Windows
    } else if is_word(table, "do", "focus") {
        Kind::Focus
    } else if is_word(table, "do", "pilfer") {
        Kind::Pilfer
    } else {
        Kind::Remove
    }
}
