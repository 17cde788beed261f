//! What one line of a key layout says.
ghost use Rattle.std.specs.Prelude.{◌≡◌};
ghost use Rattle.key_layout.specs.Line.{is_other, key_line, key_said, line_said, said};

use crate::key_name::{code_of_name, is_name};
use crate::text::{content, next_word, scan_of, without_comment};

/// What a line says.
#[derive(Clone, Copy)]
pub(crate) enum Line {
    PassedOver,
    Key { scan: u16, code: u16 },
    BadLine,
    BadName,
}

fn is_other(first: &[u8]) -> bool
    ensures { result ≡ is_other first.now }
{
    first == b"axis".as_slice()
        || (first == b"led".as_slice()
            || (first == b"sensor".as_slice() || first == b"requires_kernel_config".as_slice()))
}

fn key_line(scan: Option<u16>, name: &[u8]) -> Line
    ensures { result ≡ key_line scan name.now }
{
    match scan {
        None => Line::BadLine,
        Some(scan) => {
            if is_name(name) {
                Line::Key {
                    scan,
                    code: code_of_name(name),
                }
            } else {
                Line::BadName
            }
        }
    }
}

/// What follows the word `key`.
#[tactic(auto, unfolding(crate::specs::Line::key_said))]
fn key_said(bytes: &[u8]) -> Line
    ensures { result ≡ key_said bytes.now }
{
    let (scan, rest) = next_word(bytes);
    let (name, _flags) = next_word(rest);
    if scan == b"usage".as_slice() {
        Line::PassedOver
    } else if name.is_empty() {
        Line::BadLine
    } else {
        key_line(scan_of(scan), name)
    }
}

#[tactic(auto, unfolding(crate::specs::Line::said))]
fn said(bytes: &[u8]) -> Line
    ensures { result ≡ said bytes.now }
{
    let (first, rest) = next_word(bytes);
    if first.is_empty() || is_other(first) {
        Line::PassedOver
    } else if first == b"key".as_slice() {
        key_said(rest)
    } else {
        Line::BadLine
    }
}

/// What a line says, with or without a comment and a final newline.
#[tactic(auto, unfolding(crate::specs::Line::line_said))]
pub(crate) fn line_said(text: &[u8], ended: bool) -> Line
    ensures { result ≡ line_said (text.now, ended) }
{
    said(without_comment(content(text, ended)))
}
