//! Files that are lent.
ghost use Rattle.std.specs.Prelude.{◌≡◌, ◌<◌, ◌≤◌, ◌^◌, ◌++◌, true, false, Ok, [], ◌∷◌, map, min, length, None, Some, option_map, IfOk, OnOk, OnErr, IsErrOf, is_ok, is_err};
ghost use Rattle.std.specs.Io.{ReadsAtMost};
ghost use Rattle.std.specs.Io.KnownBytes.{ReadConsumes};
ghost use Rattle.outside_io.specs.Trace.{going};
ghost use Rattle.outside_io.specs.Calls.{faults_after};
ghost use Rattle.outside_io.specs.Outside.{GivesBytes, Rose, begun, bytes_of, loan_of, raised, read_on, unopened};
ghost use Rattle.lent_io.specs.Entries.{entry_of};
ghost use Rattle.lent_io.specs.Lent.{LentReading, LentState, no_faults};

use crate::file::LentFile;
use outside_io::{Failed, Files, FilesTrace, ReadingTrace, Source, SourceRefused};
use std::marker::Model;

/// Files in the memory of a caller. A name that no file has is a fault.
#[derive(Drop)]
pub struct LentFiles<'a> {
    files: &'a [LentFile<'a>],
    lent: bool,
    faults: u64,
    readings: FilesTrace,
}

impl<'a> Model for LentFiles<'a> {
    ghost Value = { LentState };

    ghost view = { λ f. record {
      files = map entry_of f.files.now;
      lent = f.lent;
      faults = f.faults;
      readings = f.readings.readings;
    } };

    ghost invariant = { λ f. f.faults < 2 ^ 64 };
}

/// What [`LentFiles`] lends.
#[derive(Drop)]
pub struct LentSource<'a> {
    left: &'a [u8],
    reading: ReadingTrace,
}

impl<'a> Model for LentSource<'a> {
    ghost Value = { LentReading };

    ghost view = { λ s. record { left = s.left.now; reading = s.reading.reading } };
}

/// The bytes of the first file with this name.
fn bytes_of<'a>(files: &'a [LentFile<'a>], name: &str) -> Option<&'a [u8]>
    ensures { option_map (λ bytes. bytes.now) result ≡ bytes_of (map entry_of files.now) name.now }
{
    for file in files {
        if file.name == name.as_bytes() {
            return Some(file.bytes);
        }
    }
    None
}

/// The trace of a file that is opened under this name.
fn opened(name: &str) -> ReadingTrace
    ensures { result.reading ≡ begun name.now }
{
    let mut reading = ReadingTrace::new();
    reading.open(name.as_bytes());
    reading
}

impl<'a> LentFiles<'a> {
    /// These files. None is lent, and no name was missed so far. If two files have one name, the first counts.
    pub fn new(files: &'a [LentFile<'a>]) -> LentFiles<'a>
        ensures { result ≡ record { files = map entry_of files.now; lent = false; faults = 0; readings = [] } }
    {
        LentFiles {
            files,
            lent: false,
            faults: 0,
            readings: FilesTrace::new(),
        }
    }
}

impl<'a> Files for LentFiles<'a> {
    type In = LentSource<'a>;

    ghost entries = { λ f. Some f.files };

    ghost readings = { λ f. f.readings };

    ghost faults = { λ f. f.faults };

    ghost lends = { λ _ _. true };

    ghost lent = { λ f. loan_of f.lent };

    /// A call fails if no file has the name.
    fn source(&mut self, name: &str) -> Result<LentSource<'a>, SourceRefused>
        requires { loan_of self.old.lent ≡ None }
        ensures files { self.new.files ≡ self.old.files }
        ensures count { self.new.faults ≡ faults_after (is_err result) self.old.faults }
        ensures out { self.new.lent ≡ is_ok result }
        ensures bytes { IfOk result (λ source. GivesBytes (Some self.old.files) name.now (Some source.left)) }
        ensures fresh { IfOk result (λ source. no_faults source ≡ 0) }
        ensures begun { IfOk result (λ source. source.reading ≡ begun name.now) }
        ensures opened { OnOk result (self.new.readings ≡ self.old.readings) }
        ensures not_opened { IsErrOf result SourceRefused.Failed
            → self.new.readings ≡ self.old.readings ++ unopened name.now ∷ [] }
        ensures not_asked { IsErrOf result SourceRefused.Memory → self.new.readings ≡ self.old.readings }
        ensures lent { IfOk result (λ source. loan_of self.new.lent ≡ Some 0) }
        ensures not_lent { OnErr result (loan_of self.new.lent ≡ None) }
        ensures later { self.old.faults ≤ self.new.faults }
        ensures cause { IsErrOf result SourceRefused.Failed → Rose self.old.faults self.new.faults }
        ensures memory { IsErrOf result SourceRefused.Memory → self.new.faults ≡ self.old.faults }
        ensures entries { Some self.new.files ≡ Some self.old.files }
    {
        let Some(left) = bytes_of(self.files, name) else {
            let mut reading = opened(name);
            reading.fail();
            self.readings.note(&reading);
            self.faults = self.faults.saturating_add(1);
            return Err(SourceRefused::Failed);
        };
        self.lent = true;
        Ok(LentSource {
            left,
            reading: opened(name),
        })
    }

    /// Takes the source back.
    fn done(&mut self, source: LentSource<'a>)
        requires { loan_of self.old.lent ≡ Some 0 }
        ensures later { self.old.faults ≤ self.new.faults }
        ensures faults { self.new.faults ≡ raised self.old.faults 0 }
        ensures readings { self.new.readings ≡ self.old.readings ++ source.entry.reading ∷ [] }
        ensures free { loan_of self.new.lent ≡ None }
        ensures entries { Some self.new.files ≡ Some self.old.files }
    {
        self.lent = false;
        self.readings.note(&source.reading);
    }
}

impl<'a> Source for LentSource<'a> {
    ghost left = { λ s. Some s.left };

    ghost reading = { λ s. s.reading };

    ghost faults = { no_faults };

    ghost loan = { λ _. 0 };

    /// It never fails, and gives as much as `buf` has room for and is left.
    fn read(&mut self, buf: &mut [u8]) -> Result<usize, Failed>
        requires going { self.old.reading.stage ≡ going }
        ensures count { result ≡ Ok (min (length buf.old) (length self.old.left)) }
        ensures reading { self.new.reading ≡ read_on self.old.reading result buf.new }
        ensures bound { ReadsAtMost result buf.new }
        ensures bytes { ReadConsumes (Some self.old.left) (Some self.new.left) result buf.new }
        ensures later { no_faults self.old ≤ no_faults self.new }
        ensures cause { OnErr result (Rose (no_faults self.old) (no_faults self.new)) }
    {
        let count = buf.len().min(self.left.len());
        let (given, left) = self.left.split_at(count);
        buf[..count].copy_from_slice(given);
        self.reading.note(given);
        if count == 0 && !buf.is_empty() {
            self.reading.end();
        }
        self.left = left;
        Ok(count)
    }
}
