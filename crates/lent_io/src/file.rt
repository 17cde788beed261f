//! A file that is lent.

/// A file by its name and its bytes.
#[derive(Clone, Copy)]
pub struct LentFile<'a> {
    pub name: &'a [u8],
    pub bytes: &'a [u8],
}
