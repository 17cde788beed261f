ghost use Rattle.std.specs.Prelude.{◌≡◌, ◌≤◌, length};
ghost use Rattle.outside_io.specs.Trace.{going};
ghost use Rattle.outside_io.specs.Outside.{begun, gave, unopened};

use crate::reading::ReadingTrace;

/// The trace of a file that is opened under this name.
pub fn opened(name: &str) -> ReadingTrace
    ensures { result.reading ≡ begun name.now }
{
    let mut reading = ReadingTrace::new();
    reading.open(name.as_bytes());
    reading
}

/// The trace of a file that could not be opened under this name.
pub fn not_opened(name: &str) -> ReadingTrace
    ensures { result.reading ≡ unopened name.now }
{
    let mut reading = opened(name);
    reading.fail();
    reading
}

/// Records a read that returned this count, and the end if the count is 0 for a buffer that is not empty.
pub fn note_read(reading: &mut ReadingTrace, buf: &[u8], count: usize)
    requires bound { count ≤ length buf.now }
    requires going { reading.old.reading.stage ≡ going }
    ensures { reading.new.reading ≡ gave reading.old.reading count buf.now }
{
    reading.note(&buf[..count]);
    if count == 0 && !buf.is_empty() {
        reading.end();
    }
}
