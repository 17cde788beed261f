ghost use Rattle.std.specs.Prelude.{◌++◌, codes, map, OnOk, OnErr};
ghost use Rattle.text_output.specs.Passing.{CountsFaults, Prints, StopsWithin, WritesAll};
ghost use Rattle.text_output.specs.Together.{together};

use crate::line::Line;
use crate::output::write_all;
use outside_io::{Failed, Sink};

/// Writes the parts of a line.
fn write_parts<E: Sink>(err: &mut E, parts: &[&str]) -> Result<(), Failed>
    ensures ok { OnOk result (WritesAll (E.writing err.old) (E.writing err.new)
        (together (map (λ p. p.now) parts.now))) }
    ensures err { OnErr result (StopsWithin (E.writing err.old) (E.writing err.new)
        (together (map (λ p. p.now) parts.now))) }
    ensures faults { CountsFaults E.Sink err.old err.new result }
{
    let mut line = Line::new();
    line.add_parts(err, parts)?;
    line.end(err)
}

/// Prints a line on a sink; a fault of the sink changes nothing else.
pub fn tell<E: Sink>(err: &mut E, line: &str)
    ensures { Prints E.Sink err.old err.new line.now }
{
    let _ = write_all(err, line.as_bytes());
}

/// Prints a line in parts.
pub fn tell_parts<E: Sink>(err: &mut E, parts: &[&str])
    ensures { Prints E.Sink err.old err.new (together (map (λ p. p.now) parts.now)) }
{
    let _ = write_parts(err, parts);
}

/// Prints a line of words and what they are about.
pub fn tell_named<E: Sink>(err: &mut E, words: &str, name: &str)
    ensures { Prints E.Sink err.old err.new ((words.now ++ name.now) ++ codes "\n") }
{
    tell_parts(err, &[words, name, "\n"]);
}

/// Prints a line of words and two things that they are about, with a space between these.
pub fn tell_pair<E: Sink>(err: &mut E, words: &str, first: &str, second: &str)
    ensures { Prints E.Sink err.old err.new ((words.now ++ (first.now ++ (codes " " ++ second.now))) ++ codes "\n") }
{
    tell_parts(err, &[words, first, " ", second, "\n"]);
}
