//! What each line is.
ghost use Rattle.std.specs.Prelude.{◌≡◌, ◌∷◌, [], ◌++◌, ℕ, nat_eq, List, codes, option_map, reverse, unwrap_or, is_some};
ghost use Rattle.std.specs.Prelude.{MatchOption, IfOk, IsTrue, OnOk, if◌then◌else◌};
ghost use Rattle.raw_events.specs.Line.{Known, device_at, formed, known, sender};
ghost use Rattle.raw_events.specs.Pieces.{parts};
ghost use Rattle.recording_counts.specs.Counted.{risen};
ghost use Rattle.recording_counts.specs.Cut.{behind_bracket};
ghost use Rattle.recording_counts.specs.Lines.{is_marked, path_in, text_of};
ghost use Rattle.recording_counts.specs.Paths.{PathsStandFor};
ghost use Rattle.recording_counts.specs.LineTally.{LineCountsStandFor};

use crate::cut::next_line;
use crate::number::risen_if;
use crate::paths::UnknownPaths;
use input_types::DeviceId;
use memchr::memchr;
use std::alloc::{AllocError, Global};
use text_lines::{skip_blanks, word_len};

/// How many lines there are, and how many of them are skipped: lines of nothing but blanks, lines of another form, and
/// events of devices that are not in the session, with the first paths of these; and whether the first line begins with
/// a byte order mark.
#[derive(Drop)]
pub struct LineCounts {
    pub lines: u64,
    pub blank: u64,
    pub other: u64,
    pub unknown: u64,
    pub marked: bool,
    pub paths: UnknownPaths,
}

impl LineCounts {
    /// Before the first line.
    pub(crate) fn new(alloc: Global) -> LineCounts
        ensures { (devices : Known) → LineCountsStandFor devices [] result }
    {
        LineCounts {
            lines: 0,
            blank: 0,
            other: 0,
            unknown: 0,
            marked: false,
            paths: UnknownPaths::new(alloc),
        }
    }
}

/// The line without a carriage return at its end and without the blanks in front.
#[inline(always)]
fn text_of(line: &[u8]) -> &[u8]
    ensures { result.now ≡ text_of line.now }
{
    match line {
        [text @ .., b'\r'] => skip_blanks(text),
        _ => skip_blanks(line),
    }
}

/// Whether bytes begin with the byte order mark of UTF-8.
fn is_marked(bytes: &[u8]) -> bool
    ensures { result ≡ is_marked bytes.now }
{
    match bytes {
        [a, b, c, ..] => *a == 0xEF && *b == 0xBB && *c == 0xBF,
        _ => false,
    }
}

/// Whether the recording begins with a byte order mark, if that is known of the lines before this one.
fn marked_at(lines: u64, line: &[u8], before: bool) -> bool
    ensures { result ≡ (if nat_eq lines 1 then is_marked line.now else before) }
{
    if lines == 1 { is_marked(line) } else { before }
}

/// The first byte and those after it; None if there is none.
#[inline(always)]
fn first_byte(bytes: &[u8]) -> Option<(u8, &[u8])>
    ensures { MatchOption result (bytes.now ≡ []) (λ r. bytes.now ≡ r.0 ∷ r.1.now) }
{
    match bytes {
        [first, rest @ ..] => Some((*first, rest)),
        [] => None,
    }
}

/// The bytes after the first `]`; none if there is no such byte.
#[inline(always)]
fn behind_bracket(bytes: &[u8]) -> &[u8]
    ensures { result.now ≡ behind_bracket bytes.now }
{
    match memchr(b']', bytes) {
        Some(place) => bytes.split_at(place + 1).1,
        None => &[],
    }
}

/// The path in the line of an event, given what stands after its first bracket. A line of another form may give any
/// path.
#[inline(always)]
fn path_in(bytes: &[u8]) -> Option<&[u8]>
    ensures { (devices : Known) → IsTrue (is_some (formed devices bytes.now))
        → option_map (λ p. p.now) result ≡ path_in bytes.now }
{
    let rest = skip_blanks(behind_bracket(bytes));
    let Some((first, _behind)) = first_byte(rest) else {
        return None;
    };
    if first != b'/' {
        return None;
    }
    Some(rest.split_at(word_len(rest).saturating_sub(1)).0)
}

/// Whether a device of the session has this path.
#[inline(always)]
fn has_path(devices: &[(String, DeviceId)], path: &[u8]) -> bool
    ensures { result ≡ is_some (device_at (known devices.now) path.now) }
{
    for (known, _device) in devices {
        if known.as_bytes() == path {
            return true;
        }
    }
    false
}

/// Whether a line with this path, or with none, is of a device of the session.
#[inline(always)]
fn is_sent(devices: &[(String, DeviceId)], path: Option<&[u8]>) -> bool
    ensures { result ≡ is_some (sender (known devices.now) (option_map (λ p. p.now) path.entry)) }
{
    match path {
        Some(path) => has_path(devices, path),
        None => !devices.is_empty(),
    }
}

/// Takes the line of an event, given what stands behind its first bracket.
#[inline(always)]
fn count_event(
    devices: &[(String, DeviceId)],
    counts: &mut LineCounts,
    text: &[u8],
) -> Result<(), AllocError>
    ensures lines { counts.new.lines ≡ counts.old.lines }
    ensures blank { counts.new.blank ≡ counts.old.blank }
    ensures other { counts.new.other ≡ counts.old.other }
    ensures marked { counts.new.marked ≡ counts.old.marked }
    ensures unknown { IsTrue (is_some (formed (known devices.now) text.now)) → OnOk result (counts.new.unknown
        ≡ (if is_some (sender (known devices.now) (path_in text.now)) then counts.old.unknown
        else risen counts.old.unknown)) }
    ensures paths { (past : List (List ℕ)) → IsTrue (is_some (formed (known devices.now) text.now))
        → PathsStandFor past counts.old.paths → OnOk result (PathsStandFor
        (if is_some (sender (known devices.now) (path_in text.now)) then past
        else unwrap_or (path_in text.now) (codes "-") ∷ past) counts.new.paths) }
{
    let path = path_in(text);
    if is_sent(devices, path) {
        return Ok(());
    }
    counts.unknown = risen_if(counts.unknown, true);
    match path {
        Some(path) => counts.paths.note(path),
        None => counts.paths.note(b"-"),
    }
}

/// Takes the next line.
#[inline(always)]
pub(crate) fn count_line(
    devices: &[(String, DeviceId)],
    counts: &mut LineCounts,
    line: &[u8],
) -> Result<(), AllocError>
    ensures { (past : List (List ℕ)) → LineCountsStandFor (known devices.now) past counts.old
        → OnOk result (LineCountsStandFor (known devices.now) (line.now ∷ past) counts.new) }
{
    counts.lines = risen_if(counts.lines, true);
    let Some((first, text)) = first_byte(text_of(line)) else {
        counts.blank = risen_if(counts.blank, true);
        return Ok(());
    };
    if first == b'[' {
        return count_event(devices, counts, text);
    }
    counts.other = risen_if(counts.other, true);
    counts.marked = marked_at(counts.lines, line, counts.marked);
    Ok(())
}

/// Takes the lines that end in these bytes, and returns the bytes after the last newline.
pub(crate) fn count_lines<'a>(
    devices: &[(String, DeviceId)],
    counts: &mut LineCounts,
    bytes: &'a [u8],
) -> Result<&'a [u8], AllocError>
    ensures counts { (past : List (List ℕ)) → LineCountsStandFor (known devices.now) past counts.old
        → OnOk result (LineCountsStandFor (known devices.now) (reverse (parts bytes.now).ended ++ past) counts.new) }
    ensures begun { IfOk result (λ rest. rest.now ≡ (parts bytes.now).begun) }
{
    let mut rest = bytes;
    'lines: while let Some((line, after)) = next_line(rest) {
        count_line(devices, counts, line)?;
        rest = after;
    }
    Ok(rest)
}
