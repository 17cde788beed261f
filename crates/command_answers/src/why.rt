//! `why`: the result of each call in the run of a session and a recording, and why.
ghost use Rattle.std.specs.Prelude.{Ok, IfOk, IfErr};
ghost use Rattle.command_words.specs.Command.{why};
ghost use Rattle.command_words.specs.CommandView.{recorded_view};
ghost use Rattle.command_files.specs.Keeping.{CanReadBoth, KeepsFiles};
ghost use Rattle.command_answers.specs.Program.{Answers, RefusesCommand};

use crate::running::{Sending, answer_run};
use command_files::Refusal;
use command_words::Recorded;
use outside_io::Files;
use std::alloc::Global;
use text_pieces::Pieces;

/// Reads and judges both files of `why`, and makes the text.
pub fn answer_why<F: Files>(
    alloc: Global,
    files: &mut F,
    names: Recorded<'_>,
) -> Result<Pieces, Refusal>
    requires files { CanReadBoth F.Files files.old names.session.now names.events.now }
    ensures ok { IfOk result (λ text. Answers (F.entries files.old) (F.readings files.old) (F.readings files.new)
        (why (recorded_view names.entry)) (Ok text)) }
    ensures err { IfErr result (RefusesCommand (F.entries files.old) (F.readings files.old) (F.readings files.new)
        (why (recorded_view names.entry)) (F.faults files.old) (F.faults files.new)) }
    ensures files { KeepsFiles F.Files files.old files.new }
{
    answer_run(alloc, files, names, Sending::Causes)
}
