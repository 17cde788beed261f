ghost use Rattle.std.specs.Prelude.{◌≡◌, ◌++◌, [], map, OnOk, OnErr};
ghost use Rattle.text_output.specs.Passing.{CountsFaults, StopsWithin, WritesAll, WritesUpTo};
ghost use Rattle.text_output.specs.Together.{together};

use crate::output::write_all;
use arrayvec::ArrayVec;
use outside_io::{Failed, Sink};
use std::marker::Model;

/// The end of a line that is written part by part: what was added and not yet handed to the sink. It holds up to 256
/// bytes, so a line of at most that length is one write.
#[derive(Drop)]
pub struct Line {
    held: ArrayVec<u8, 256>,
}

impl Model for Line {
    ghost use Rattle.std.specs.Prelude.{ℕ, List};

    ghost Value = { List ℕ };

    ghost view = { λ l. l.held.items };
}

impl Line {
    /// An empty line.
    pub fn new() -> Line
        ensures { result ≡ [] }
    {
        Line {
            held: ArrayVec::new(),
        }
    }

    /// Adds a part of the line. If there is no room for it, writes what is held, and then the part.
    pub fn add<E: Sink>(&mut self, err: &mut E, part: &str) -> Result<(), Failed>
        ensures ok { OnOk result (WritesUpTo (E.writing err.old) (E.writing err.new) (self.old ++ part.now) self.new) }
        ensures err { OnErr result (StopsWithin (E.writing err.old) (E.writing err.new) (self.old ++ part.now)) }
        ensures faults { CountsFaults E.Sink err.old err.new result }
    {
        match self.held.try_extend_from_slice(part.as_bytes()) {
            Ok(()) => Ok(()),
            Err(_) => self.write_through(err, part),
        }
    }

    /// Writes what is held, and then the part.
    fn write_through<E: Sink>(&mut self, err: &mut E, part: &str) -> Result<(), Failed>
        ensures ok { OnOk result (WritesUpTo (E.writing err.old) (E.writing err.new) (self.old ++ part.now) self.new) }
        ensures err { OnErr result (StopsWithin (E.writing err.old) (E.writing err.new) (self.old ++ part.now)) }
        ensures faults { CountsFaults E.Sink err.old err.new result }
    {
        write_all(err, self.held.as_slice())?;
        self.held.clear();
        write_all(err, part.as_bytes())
    }

    /// Adds parts of the line.
    pub fn add_parts<E: Sink>(&mut self, err: &mut E, parts: &[&str]) -> Result<(), Failed>
        ensures ok { OnOk result (WritesUpTo (E.writing err.old) (E.writing err.new)
            (self.old ++ together (map (λ p. p.now) parts.now)) self.new) }
        ensures err { OnErr result (StopsWithin (E.writing err.old) (E.writing err.new)
            (self.old ++ together (map (λ p. p.now) parts.now))) }
        ensures faults { CountsFaults E.Sink err.old err.new result }
    {
        for part in parts {
            self.add(err, part)?;
        }
        Ok(())
    }

    /// Writes what is held.
    pub fn end<E: Sink>(self, err: &mut E) -> Result<(), Failed>
        ensures ok { OnOk result (WritesAll (E.writing err.old) (E.writing err.new) self) }
        ensures err { OnErr result (StopsWithin (E.writing err.old) (E.writing err.new) self) }
        ensures faults { CountsFaults E.Sink err.old err.new result }
    {
        write_all(err, self.held.as_slice())
    }
}
