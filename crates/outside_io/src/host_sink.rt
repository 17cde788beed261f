ghost use Rattle.std.specs.Prelude.{◌≡◌, ◌<◌, ◌≤◌, [], length, IfOk, OnErr, is_err};
ghost use Rattle.std.specs.Io.{WritesAtMost};
ghost use Rattle.outside_io.specs.Outside.{Rose, wrote_on};
ghost use Rattle.outside_io.specs.Calls.{faults_after};
ghost use Rattle.outside_io.specs.HostFiles.{HostWriting};

use crate::outside::{Failed, Sink};
use crate::writing::SinkTrace;
use std::io::Write;
use std::marker::Model;

/// A sink over a file, standard output or standard error of the machine. Contracts see how often it failed and what it
/// took. It only calls `write` and never flushes, so `W` must not buffer.
#[derive(Drop)]
pub struct HostSink<W> {
    inner: W,
    faults: u64,
    trace: SinkTrace,
}

impl<W> Model for HostSink<W> {
    ghost Value = { HostWriting };

    ghost view = { λ s. record { faults = s.faults; writing = s.trace.writing } };
}

impl<W: Write> HostSink<W> {
    /// A sink that has not failed so far.
    pub fn new(inner: W) -> HostSink<W>
        ensures { result ≡ record { faults = 0; writing = record { took = []; writes = [] } } }
    {
        HostSink {
            inner,
            faults: 0,
            trace: SinkTrace::new(),
        }
    }
}

impl<W: Write> Sink for HostSink<W> {
    ghost writing = { λ s. s.writing };

    ghost faults = { λ s. s.faults };

    /// Counts each error of the machine, and an answer 0 for bytes that are not empty as one, and notes
    /// what it took.
    fn write(&mut self, buf: &[u8]) -> Result<usize, Failed>
        ensures count { self.new.faults ≡ faults_after (is_err result) self.old.faults }
        ensures writing { self.new.writing ≡ wrote_on self.old.writing result buf.now }
        ensures bound { WritesAtMost result buf.now }
        ensures some { 0 < length buf.now → IfOk result (λ n. 0 < n) }
        ensures later { self.old.faults ≤ self.new.faults }
        ensures cause { OnErr result (Rose self.old.faults self.new.faults) }
    {
        match self.inner.write(buf) {
            Ok(count) if count > 0 || buf.is_empty() => {
                self.trace.note(buf, &buf[..count]);
                Ok(count)
            }
            _ => {
                self.trace.note(buf, &buf[..0]);
                self.faults = self.faults.saturating_add(1);
                Err(Failed)
            }
        }
    }
}
