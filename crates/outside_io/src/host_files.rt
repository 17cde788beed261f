ghost use Rattle.std.specs.Prelude.{◌≡◌, ◌≤◌, ◌++◌, true, false, [], ◌∷◌, None, Some, IfOk, OnOk, OnErr, IsErrOf, is_ok, is_err};
ghost use Rattle.std.specs.Io.{ReadsAtMost};
ghost use Rattle.outside_io.specs.Outside.{raised, Rose, GivesBytes, begun, loan_of, read_on, unopened};
ghost use Rattle.outside_io.specs.Trace.{going};
ghost use Rattle.outside_io.specs.Calls.{faults_after};
ghost use Rattle.outside_io.specs.HostFiles.{HostState, HostReading};

use crate::outside::{Failed, Files, Source, SourceRefused};
use crate::reading::ReadingTrace;
use crate::readings::FilesTrace;
use crate::tracing::{not_opened, note_read, opened};
use std::io::Read;
use std::marker::Model;
use std::{fs, rt};

/// The files of the machine, under their paths. Contracts see how often the machine failed, whether a
/// source is out and how files were read, and nothing of what the files hold.
#[derive(Drop)]
pub struct HostFiles<'a, R> {
    rt: &'a R,
    lent: bool,
    faults: u64,
    readings: FilesTrace,
}

impl<'a, R> Model for HostFiles<'a, R> {
    ghost Value = { HostState };

    ghost view = { λ f. record { faults = f.faults; lent = f.lent; readings = f.readings.readings } };
}

/// An open file of the machine. Contracts see how often it failed, and what it gave.
#[derive(Drop)]
pub struct HostSource<F> {
    inner: F,
    faults: u64,
    reading: ReadingTrace,
}

impl<F> Model for HostSource<F> {
    ghost Value = { HostReading };

    ghost view = { λ s. record { faults = s.faults; reading = s.reading.reading } };
}

impl<'a, R: rt::Files> HostFiles<'a, R> {
    /// The files that this runtime reaches. None is lent, and none failed so far.
    pub fn new(rt: &'a R) -> HostFiles<'a, R>
        ensures { result ≡ record { faults = 0; lent = false; readings = [] } }
    {
        HostFiles {
            rt,
            lent: false,
            faults: 0,
            readings: FilesTrace::new(),
        }
    }
}

impl<'a, R: rt::Files> Files for HostFiles<'a, R> {
    type In = HostSource<R::File>;

    ghost entries = { λ _. None };

    ghost readings = { λ f. f.readings };

    ghost faults = { λ f. f.faults };

    ghost lends = { λ _ _. true };

    ghost lent = { λ f. loan_of f.lent };

    /// Opens the file of this path. Each refusal of the machine is a fault.
    fn source(&mut self, name: &str) -> Result<HostSource<R::File>, SourceRefused>
        requires { loan_of self.old.lent ≡ None }
        ensures count { self.new.faults ≡ faults_after (is_err result) self.old.faults }
        ensures out { self.new.lent ≡ is_ok result }
        ensures begun { IfOk result (λ source. source.reading ≡ begun name.now) }
        ensures opened { OnOk result (self.new.readings ≡ self.old.readings) }
        ensures not_opened { IsErrOf result SourceRefused.Failed
            → self.new.readings ≡ self.old.readings ++ unopened name.now ∷ [] }
        ensures not_asked { IsErrOf result SourceRefused.Memory → self.new.readings ≡ self.old.readings }
        ensures bytes { IfOk result (λ source. GivesBytes None name.now None) }
        ensures fresh { IfOk result (λ source. source.faults ≡ 0) }
        ensures lent { IfOk result (λ source. loan_of self.new.lent ≡ Some 0) }
        ensures not_lent { OnErr result (loan_of self.new.lent ≡ None) }
        ensures later { self.old.faults ≤ self.new.faults }
        ensures cause { IsErrOf result SourceRefused.Failed → Rose self.old.faults self.new.faults }
        ensures memory { IsErrOf result SourceRefused.Memory → self.new.faults ≡ self.old.faults }
    {
        match fs::open(self.rt, name) {
            Ok(inner) => {
                self.lent = true;
                Ok(HostSource {
                    inner,
                    faults: 0,
                    reading: opened(name),
                })
            }
            Err(_) => {
                self.faults = self.faults.saturating_add(1);
                self.readings.note(&not_opened(name));
                Err(SourceRefused::Failed)
            }
        }
    }

    /// Closes the file.
    fn done(&mut self, source: HostSource<R::File>)
        requires { loan_of self.old.lent ≡ Some 0 }
        ensures later { self.old.faults ≤ self.new.faults }
        ensures faults { self.new.faults ≡ raised self.old.faults source.faults }
        ensures readings { self.new.readings ≡ self.old.readings ++ source.reading ∷ [] }
        ensures free { loan_of self.new.lent ≡ None }
    {
        self.lent = false;
        self.faults = self.faults.saturating_add(source.faults);
        self.readings.note(&source.reading);
    }
}

impl<F: Read> Source for HostSource<F> {
    ghost left = { λ _. None };

    ghost reading = { λ s. s.reading };

    ghost faults = { λ s. s.faults };

    ghost loan = { λ _. 0 };

    /// Counts each error of the machine, and notes what it gave, its end and its failure.
    fn read(&mut self, buf: &mut [u8]) -> Result<usize, Failed>
        requires going { self.old.reading.stage ≡ going }
        ensures count { self.new.faults ≡ faults_after (is_err result) self.old.faults }
        ensures bound { ReadsAtMost result buf.new }
        ensures reading { self.new.reading ≡ read_on self.old.reading result buf.new }
        ensures later { self.old.faults ≤ self.new.faults }
        ensures cause { OnErr result (Rose self.old.faults self.new.faults) }
    {
        match self.inner.read(buf) {
            Ok(count) => {
                note_read(&mut self.reading, buf, count);
                Ok(count)
            }
            Err(_) => {
                self.faults = self.faults.saturating_add(1);
                self.reading.fail();
                Err(Failed)
            }
        }
    }
}
