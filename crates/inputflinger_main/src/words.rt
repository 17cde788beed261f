//! The words after the program's name.

use std::alloc::{AllocError, Global};
use std::env::{Env, FillError};
use std::str;

/// A word of up to this many bytes needs no longer buffer.
const SHORT: usize = 256;

/// The words after the program's name. A word that is not UTF-8 counts as the empty word in its place.
pub fn words<R: Env>(rt: &R, alloc: Global) -> Result<Vec<String>, AllocError> {
    let mut words = Vec::new(alloc);
    let mut buffer = Vec::new(alloc);
    buffer.resize(SHORT, 0)?;
    for i in 1..usize::MAX {
        match word(rt, alloc, i, &mut buffer)? {
            Some(word) => words.push(word)?,
            None => break,
        }
    }
    Ok(words)
}

/// The word at an index; None past the last one. The buffer grows until the word fits.
fn word<R: Env>(
    rt: &R,
    alloc: Global,
    i: usize,
    buffer: &mut Vec<u8>,
) -> Result<Option<String>, AllocError> {
    for _ in 0..usize::BITS {
        match rt.arg(i, buffer.as_mut_slice()) {
            Ok(len) => {
                let text = text_of(&buffer[..len]);
                return Ok(Some(String::from_str(alloc, text)?));
            }
            Err(FillError::NotPresent) => return Ok(None),
            Err(FillError::TooLong) => {
                let len = buffer.len();
                buffer.resize(len.saturating_add(len), 0)?;
            }
        }
    }
    Err(AllocError)
}

/// Bytes as a text; the empty text if they are not UTF-8.
fn text_of(bytes: &[u8]) -> &str {
    match str::from_utf8(bytes) {
        Ok(text) => text,
        Err(_) => "",
    }
}
