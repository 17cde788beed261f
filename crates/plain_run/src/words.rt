//! The words of a run.
ghost use Rattle.std.specs.Prelude.{◌≡◌, IfOk, map, string_bytes};
ghost use Rattle.plain_run.specs.Words.{word_of, words_of};

use std::alloc::{AllocError, Global};
use std::str;
use text_lines::first_line;

/// The word of a line. A line that is not UTF-8 is the empty word, like such a word of the program.
fn word_of(text: &[u8]) -> &str
    ensures { result.now ≡ word_of text.now }
{
    match str::from_utf8(text) {
        Ok(word) => word,
        Err(_) => "",
    }
}

/// The words of a text, one per line.
pub(crate) fn words_of(alloc: Global, bytes: &[u8]) -> Result<Vec<String>, AllocError>
    ensures { IfOk result (λ words. map string_bytes words.items ≡ words_of bytes.now) }
{
    let mut words = Vec::new(alloc);
    let mut rest = bytes;
    'lines: while !rest.is_empty() {
        let line = first_line(rest);
        words.push(String::from_str(alloc, word_of(line.text))?)?;
        rest = line.rest;
    }
    Ok(words)
}
