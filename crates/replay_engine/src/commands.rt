//! The answer to a command that starts no threads.
ghost use Rattle.std.specs.Prelude.{◌≡◌, None, Some, Ok, IfOk, IfErr};
ghost use Rattle.command_words.specs.Command.{InRanges};
ghost use Rattle.command_words.specs.CommandView.{alone_view};
ghost use Rattle.command_answers.specs.Program.{Answers, RefusesCommand};
ghost use Rattle.replay_engine.specs.Outcome.{LendsNames};
ghost use Rattle.command_files.specs.Keeping.{KeepsFiles};

use command_answers::{
    answer_batch, answer_check, answer_compare, answer_emit, answer_hover, answer_inspect,
    answer_judge, answer_page, answer_replay, answer_verify, answer_why, answer_work,
};
use command_files::Refusal;
use command_words::Alone;
use compare_text::{Comparison, Tolerance};
use outside_io::Files;
use std::alloc::Global;
use text_pieces::Pieces;

/// The text that the program writes for a command that starts no threads, or why it writes none.
pub fn answer_alone<F: Files>(
    alloc: Global,
    files: &mut F,
    command: &Alone<'_>,
) -> Result<Pieces, Refusal>
    requires lends { LendsNames (F.entries files.old) (F.lends files.old) (Some (alone_view command.now)) }
    requires ranges { InRanges (alone_view command.now) }
    requires free { F.lent files.old ≡ None }
    ensures ok { IfOk result (λ text. Answers (F.entries files.old) (F.readings files.old) (F.readings files.new)
        (alone_view command.now) (Ok text)) }
    ensures err { IfErr result (RefusesCommand (F.entries files.old) (F.readings files.old) (F.readings files.new)
        (alone_view command.now) (F.faults files.old) (F.faults files.new)) }
    ensures files { KeepsFiles F.Files files.old files.new }
{
    match command {
        Alone::Replay(recorded) => answer_replay(alloc, files, *recorded),
        Alone::Check { recorded, order } => answer_check(alloc, files, *recorded, order),
        Alone::Verify { stream } => answer_verify(alloc, files, stream),
        Alone::Work { seed, packets } => answer_work(alloc, *seed, *packets),
        Alone::Batch { stream, frame } => answer_batch(alloc, files, stream, *frame),
        Alone::Hover { recorded, mouse } => answer_hover(alloc, files, *recorded, mouse),
        Alone::Emit {
            stream,
            channel,
            device,
        } => answer_emit(alloc, files, stream, *channel, *device),
        Alone::Judge { stream } => answer_judge(alloc, files, stream),
        Alone::Compare {
            want,
            got,
            us,
            pixels,
            want_channel,
            got_channel,
            each_move,
        } => {
            let rule = Comparison {
                tolerance: Tolerance {
                    us: *us,
                    pixels: *pixels,
                },
                want_channel: *want_channel,
                got_channel: *got_channel,
                each_move: *each_move,
            };
            answer_compare(alloc, files, want, got, rule)
        }
        Alone::Inspect(recorded) => answer_inspect(alloc, files, *recorded),
        Alone::Why(recorded) => answer_why(alloc, files, *recorded),
        Alone::Show(page) => answer_page(alloc, *page),
    }
}
