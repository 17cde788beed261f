//! The numbers of a line.
use std::alloc::{AllocError, Global};

/// A decimal number.
pub(crate) fn number(word: &[u8]) -> Option<u64> {
    if word.is_empty() {
        return None;
    }
    let mut n: u64 = 0;
    for digit in word {
        if *digit < b'0' || b'9' < *digit {
            return None;
        }
        n = n.checked_mul(10)?.checked_add(u64::from(*digit - b'0'))?;
    }
    Some(n)
}

/// The numbers among the words of a line.
pub(crate) fn numbers(alloc: Global, line: &[u8]) -> Result<Vec<u64>, AllocError> {
    let mut all = Vec::new(alloc);
    for word in line.split(|b| *b == b' ') {
        if let Some(n) = number(word) {
            all.push(n)?;
        }
    }
    Ok(all)
}

/// The first word of a line.
pub(crate) fn first_word(line: &[u8]) -> &[u8] {
    match line.iter().position(|b| *b == b' ') {
        Some(end) => line.split_at(end).0,
        None => line,
    }
}
