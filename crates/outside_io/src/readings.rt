ghost use Rattle.std.specs.Prelude.{◌≡◌, List, [], ◌∷◌, ◌++◌};
ghost use Rattle.std.specs.Borrow.{ftrue};
ghost use Rattle.outside_io.specs.Trace.{Reading};

use crate::reading::ReadingTrace;
use std::marker::Model;

/// How files are read, one after another.
#[derive(Drop)]
pub struct FilesTrace {
    pub ghost readings: { List Reading },
}

impl Model for FilesTrace {
    ghost also_owns = { λ _. ftrue };
}

impl FilesTrace {
    /// No file is read yet.
    #[inline(always)]
    pub fn new() -> FilesTrace
        ensures { result.readings ≡ [] }
    {
        FilesTrace {}
    }

    /// A file was read so.
    #[inline(always)]
    pub fn note(&mut self, _trace: &ReadingTrace)
        ensures { self.new.readings ≡ self.old.readings ++ _trace.now.reading ∷ [] }
    {}
}
