ghost use Rattle.std.specs.Prelude.{◌≡◌, [], ◌++◌};
ghost use Rattle.std.specs.Borrow.{ftrue};
ghost use Rattle.outside_io.specs.Trace.{Reading, going, at_end, failed};

use std::marker::Model;

/// How one file is read.
#[derive(Drop)]
pub struct ReadingTrace {
    pub ghost reading: { Reading },
}

impl Model for ReadingTrace {
    ghost also_owns = { λ _. ftrue };
}

impl ReadingTrace {
    /// Nothing is read yet, and no name is known.
    #[inline(always)]
    pub fn new() -> ReadingTrace
        ensures { result.reading ≡ record { name = []; given = []; stage = going } }
    {
        ReadingTrace {}
    }

    /// The file is opened under this name.
    #[inline(always)]
    pub fn open(&mut self, _name: &[u8])
        ensures { self.new.reading ≡ record self.old.reading { name = _name.now } }
    {}

    /// These bytes are given.
    #[inline(always)]
    pub fn note(&mut self, _piece: &[u8])
        ensures { self.new.reading ≡ record self.old.reading { given = self.old.reading.given ++ _piece.now } }
    {}

    /// The end is reached.
    #[inline(always)]
    pub fn end(&mut self)
        ensures { self.new.reading ≡ record self.old.reading { stage = at_end } }
    {}

    /// The opening, or a read, failed.
    #[inline(always)]
    pub fn fail(&mut self)
        ensures { self.new.reading ≡ record self.old.reading { stage = failed } }
    {}
}
