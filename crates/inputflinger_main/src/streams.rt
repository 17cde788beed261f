//! Standard output and standard error. If nobody reads the output any more, as behind `replay .. | head -n 1`, a write
//! fails and the program ends with the status of that, but prints no line.

use std::cell::Cell;
use std::io::{self, ErrorKind, Write};

/// Standard output. It notes when nobody reads it any more.
#[derive(Drop)]
pub struct Output<'a, W> {
    inner: W,
    gone: &'a Cell<bool>,
}

impl<'a, W: Write> Output<'a, W> {
    pub fn new(inner: W, gone: &'a Cell<bool>) -> Output<'a, W> {
        Output { inner, gone }
    }
}

impl<W: Write> Write for Output<'_, W> {
    fn write(&mut self, buf: &[u8]) -> io::Result<usize> {
        let written = self.inner.write(buf);
        if let Err(error) = &written {
            if error.kind() == ErrorKind::BrokenPipe {
                self.gone.set(true);
            }
        }
        written
    }

    fn flush(&mut self) -> io::Result<()> {
        self.inner.flush()
    }
}

/// Standard error. It drops everything that is written once nobody reads the output any more.
#[derive(Drop)]
pub struct Errors<'a, W> {
    inner: W,
    gone: &'a Cell<bool>,
}

impl<'a, W: Write> Errors<'a, W> {
    pub fn new(inner: W, gone: &'a Cell<bool>) -> Errors<'a, W> {
        Errors { inner, gone }
    }
}

impl<W: Write> Write for Errors<'_, W> {
    fn write(&mut self, buf: &[u8]) -> io::Result<usize> {
        if self.gone.get() {
            return Ok(buf.len());
        }
        self.inner.write(buf)
    }

    fn flush(&mut self) -> io::Result<()> {
        self.inner.flush()
    }
}
