//! A section, as a reader.
use stream_text::StreamLines;

/// A section of a file, and a reader that stands at its first message.
#[derive(Drop)]
pub(crate) struct Opened<'a> {
    pub id: u32,
    /// The line with which it begins.
    pub line: u64,
    pub lines: StreamLines<'a>,
}
