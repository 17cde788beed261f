//! The program.
ghost use Rattle.std.specs.Prelude.{◌≡◌, false, map, string_bytes};
ghost use Rattle.command_words.specs.Forms.{form_of};
ghost use Rattle.lent_io.specs.Entries.{entry_of};
ghost use Rattle.plain_run.specs.Running.{RunsTo, is_race};

use command_words::{Command, command_of};
use lent_io::{LentFile, LentFiles, TextSink};
use replay_engine::run_alone;
use std::alloc::Global;

/// What the program printed, and the status that it ended with.
#[derive(Drop)]
pub(crate) struct Printed {
    pub(crate) text: TextSink,
    pub(crate) line: TextSink,
    pub(crate) status: u8,
}

/// Whether the words are those of `race`, which starts threads.
#[tactic(auto, using(crate::proofs::Commands::alone_is_no_race))]
pub(crate) fn is_race(words: &[String]) -> bool
    ensures { result ≡ is_race (form_of (map string_bytes words.now)) }
{
    matches!(command_of(words), Some(Command::Race(_)))
}

/// Runs the program over these files, which it names `1`, `2` and `3`.
#[tactic(auto, using(crate::proofs::Commands::is_alone, crate::proofs::Commands::lends_all))]
pub(crate) fn print(alloc: Global, words: &[String], files: &[LentFile<'_>]) -> Printed
    requires { is_race (form_of (map string_bytes words.now)) ≡ false }
    ensures { RunsTo (map string_bytes words.now) (map entry_of files.now) result.text.writing.took
        result.line.writing.took result.status }
{
    let mut files = LentFiles::new(files);
    let mut text = TextSink::new(alloc);
    let mut line = TextSink::new(alloc);
    let status = run_alone(alloc, words, &mut files, &mut text, &mut line);
    Printed { text, line, status }
}
