ghost use Rattle.std.specs.Prelude.{◌≡◌, ℕ, ◌<◌, ◌≤◌, ◌++◌, Bool, List, [], ◌∷◌, length, Option, IfOk, OnOk, OnErr, IsErrOf, IsTrue};
ghost use Rattle.std.specs.Io.{ReadsAtMost, WritesAtMost};
ghost use Rattle.std.specs.Io.KnownBytes.{ReadConsumes};
ghost use Rattle.outside_io.specs.Trace.{Reading, Writing, going};
ghost use Rattle.outside_io.specs.Outside.{raised, Rose, Entry, GivesBytes, begun, read_on, unopened, wrote_on};
ghost use Rattle.outside_io.specs.declared.outside.SourceRefused.TheVariants.{Memory};

use std::alloc::AllocError;

/// A read or a write that failed. The object that was asked counted a fault.
#[derive(Clone, Copy, Debug, PartialEq, Eq)]
pub struct Failed;

/// Where bytes come from, as an open file.
pub trait Source {
    /// The bytes that are left, if the source states them.
    ghost left: { Self → Option (List ℕ) };

    /// How it was read so far.
    ghost reading: { Self → Reading };

    /// How often it failed so far. It begins at 0.
    ghost faults: { Self → ℕ };

    /// Which loan of its files this source is.
    ghost loan: { Self → ℕ };

    /// Moves bytes from the front of those left into `buf`, and returns how many. A return of 0 for a buffer that is
    /// not empty means the end. A call that fails moves none. Nothing may be read after the end, or after a call that
    /// failed.
    fn read(&mut self, buf: &mut [u8]) -> Result<usize, Failed>
        requires going { (reading self.old).stage ≡ going }
        ensures bound { ReadsAtMost result buf.new }
        ensures reading { reading self.new ≡ read_on (reading self.old) result buf.new }
        ensures bytes { ReadConsumes (left self.old) (left self.new) result buf.new }
        ensures later { faults self.old ≤ faults self.new }
        ensures cause { OnErr result (Rose (faults self.old) (faults self.new)) }
        ensures loan { loan self.new ≡ loan self.old };
}

/// Where bytes go to, as standard output.
pub trait Sink {
    /// The bytes that it took so far, and the writes that it was asked for.
    ghost writing: { Self → Writing };

    /// How often it failed so far. It begins at 0.
    ghost faults: { Self → ℕ };

    /// Takes a front part of `buf` and returns its length, which is at least 1 if `buf` is not empty. A sink that can
    /// take nothing of such a piece fails. A call that fails took nothing.
    fn write(&mut self, buf: &[u8]) -> Result<usize, Failed>
        ensures bound { WritesAtMost result buf.now }
        ensures some { 0 < length buf.now → IfOk result (λ n. 0 < n) }
        ensures writing { writing self.new ≡ wrote_on (writing self.old) result buf.now }
        ensures later { faults self.old ≤ faults self.new }
        ensures cause { OnErr result (Rose (faults self.old) (faults self.new)) };
}

/// Why no source was lent.
#[derive(Clone, Copy, Debug, PartialEq, Eq)]
pub enum SourceRefused {
    /// The outside failed, or has no file of that name. A fault was counted.
    Failed,
    /// There was not enough memory for the source. Nothing changed.
    Memory,
}

impl From<AllocError> for SourceRefused {
    ghost from_gives = { λ _ e. e ≡ Memory };

    fn from(_error: AllocError) -> SourceRefused {
        SourceRefused::Memory
    }
}

/// Files under names. One source at a time is lent, until `done` takes it back.
pub trait Files {
    type In: Source;

    /// What the files hold, if that is known.
    ghost entries: { Self → Option (List Entry) };

    /// The readings so far: one for each source that came back, and one for each name for which the outside failed.
    ghost readings: { Self → List Reading };

    /// How often it failed so far, with the faults of the sources that came back. It begins at 0.
    ghost faults: { Self → ℕ };

    /// Whether it lends a source for this name.
    ghost lends: { Self → List ℕ → Bool };

    /// The loan that is out, if one is.
    ghost lent: { Self → Option ℕ };

    /// Lends a source that has the bytes under `name` left, and no fault so far. A name that does not exist is a fault.
    /// After a call that lends nothing, the next one may lend.
    fn source(&mut self, name: &str) -> Result<Self::In, SourceRefused>
        requires lends { IsTrue (lends self.old name.now) }
        requires free { lent self.old ≡ None }

        ensures bytes { IfOk result (λ source. GivesBytes (entries self.old) name.now (Self.In.left source)) }
        ensures fresh { IfOk result (λ source. Self.In.faults source ≡ 0) }
        ensures begun { IfOk result (λ source. Self.In.reading source ≡ begun name.now) }
        ensures opened { OnOk result (readings self.new ≡ readings self.old) }
        ensures not_opened { IsErrOf result SourceRefused.Failed
            → readings self.new ≡ readings self.old ++ unopened name.now ∷ [] }
        ensures not_asked { IsErrOf result SourceRefused.Memory → readings self.new ≡ readings self.old }
        ensures lent { IfOk result (λ source. lent self.new ≡ Some (Self.In.loan source)) }
        ensures not_lent { OnErr result (lent self.new ≡ None) }

        ensures later { faults self.old ≤ faults self.new }
        ensures cause { IsErrOf result SourceRefused.Failed → Rose (faults self.old) (faults self.new) }
        ensures memory { IsErrOf result SourceRefused.Memory → faults self.new ≡ faults self.old }

        ensures entries { entries self.new ≡ entries self.old }
        ensures names { lends self.new ≡ lends self.old };

    /// Takes back the source that is lent, and adds its faults to the count.
    fn done(&mut self, source: Self::In)
        requires { lent self.old ≡ Some (Self.In.loan source) }

        ensures later { faults self.old ≤ faults self.new }
        ensures faults { faults self.new ≡ raised (faults self.old) (Self.In.faults source) }
        ensures readings { readings self.new ≡ readings self.old ++ Self.In.reading source ∷ [] }
        ensures free { lent self.new ≡ None }

        ensures entries { entries self.new ≡ entries self.old }
        ensures names { lends self.new ≡ lends self.old };
}
