ghost use Rattle.std.specs.Prelude.{◌≡◌, [], ◌∷◌, ◌++◌, length};
ghost use Rattle.std.specs.Borrow.{ftrue};
ghost use Rattle.outside_io.specs.Trace.{Writing};

use std::marker::Model;

/// What a sink was asked to take, and what it took.
#[derive(Drop)]
pub struct SinkTrace {
    pub ghost writing: { Writing },
}

impl Model for SinkTrace {
    ghost also_owns = { λ _. ftrue };
}

impl SinkTrace {
    /// Nothing is written yet.
    #[inline(always)]
    pub fn new() -> SinkTrace
        ensures { result.writing ≡ record { took = []; writes = [] } }
    {
        SinkTrace {}
    }

    /// Some bytes are handed over, and these of them are taken.
    #[inline(always)]
    pub fn note(&mut self, _handed: &[u8], _taken: &[u8])
        ensures { self.new.writing
            ≡ record {
              took = self.old.writing.took ++ _taken.now;
              writes = self.old.writing.writes ++ record { handed = _handed.now; count = length _taken.now } ∷ [];
            } }
    {}
}
