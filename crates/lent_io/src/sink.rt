//! A sink that keeps its text.
ghost use Rattle.std.specs.Prelude.{◌≡◌, ◌≤◌, ◌<◌, [], length, IfOk, OnErr, is_err};
ghost use Rattle.std.specs.Io.{WritesAtMost};
ghost use Rattle.outside_io.specs.Calls.{faults_after};
ghost use Rattle.outside_io.specs.Outside.{Rose, wrote_on};
ghost use Rattle.lent_io.specs.Lent.{TextState};

use outside_io::{Failed, Sink, SinkTrace};
use std::alloc::Global;
use std::marker::Model;

/// A sink that takes everything that it is handed, and keeps it. A write for which there is no memory is a fault.
#[derive(Drop)]
pub struct TextSink {
    text: Vec<u8>,
    faults: u64,
    trace: SinkTrace,
}

impl Model for TextSink {
    ghost Value = { TextState };

    ghost view = { λ s. record { writing = s.trace.writing; faults = s.faults } };

    ghost invariant = { λ s. s.text.items ≡ s.trace.writing.took };
}

impl TextSink {
    /// A sink that took nothing so far, whose memory is of `alloc`.
    pub fn new(alloc: Global) -> TextSink
        ensures { result ≡ record { writing = record { took = []; writes = [] }; faults = 0 } }
    {
        TextSink {
            text: Vec::new(alloc),
            faults: 0,
            trace: SinkTrace::new(),
        }
    }

    /// The text that it took.
    pub fn text(&self) -> &[u8]
        ensures { result.now ≡ self.now.writing.took }
    {
        self.text.as_slice()
    }
}

impl Sink for TextSink {
    ghost writing = { λ s. s.writing };

    ghost faults = { λ s. s.faults };

    /// Takes all of `buf`, or nothing if there is no memory for it.
    fn write(&mut self, buf: &[u8]) -> Result<usize, Failed>
        ensures all { IfOk result (λ n. n ≡ length buf.now) }
        ensures count { self.new.faults ≡ faults_after (is_err result) self.old.faults }
        ensures writing { self.new.writing ≡ wrote_on self.old.writing result buf.now }
        ensures bound { WritesAtMost result buf.now }
        ensures some { 0 < length buf.now → IfOk result (λ n. 0 < n) }
        ensures later { self.old.faults ≤ self.new.faults }
        ensures cause { OnErr result (Rose self.old.faults self.new.faults) }
    {
        match self.text.extend_from_slice(buf) {
            Ok(()) => {
                self.trace.note(buf, buf);
                Ok(buf.len())
            }
            Err(_) => {
                self.trace.note(buf, &buf[..0]);
                self.faults = self.faults.saturating_add(1);
                Err(Failed)
            }
        }
    }
}
