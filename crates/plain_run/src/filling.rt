//! Texts that go to buffers.
ghost use Rattle.plain_run.specs.Running.{Fills};

/// Copies as much of the front of a text into a buffer as fits, and returns the length of the text.
pub(crate) fn fill(buffer: &mut [u8], text: &[u8]) -> usize
    ensures { Fills text.now buffer.old buffer.new result }
{
    let count = buffer.len().min(text.len());
    buffer[..count].copy_from_slice(&text[..count]);
    text.len()
}
