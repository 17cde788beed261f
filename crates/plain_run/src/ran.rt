//! The result of a run.

/// The result of a run: `struct inputflinger_ran`.
#[repr(C)]
#[derive(Clone, Copy, Debug)]
pub struct PlainRan {
    /// The length of the text that the program prints to its standard output, in bytes.
    pub out_len: usize,
    /// The length of its line on standard error.
    pub err_len: usize,
    /// The status that it ended with, 0 to 7.
    pub status: u32,
}
