//! The files of a run.

/// The first `count` of three files, which are named `1`, `2` and `3`.
#[derive(Clone, Copy)]
pub struct Lent<'a> {
    /// 0 to 3.
    pub count: u32,
    pub first: &'a [u8],
    pub second: &'a [u8],
    pub third: &'a [u8],
}
