//! `judge`: whether each section of a stream file is whole, and if not, why.
ghost use Rattle.std.specs.Prelude.{◌≡◌, Ok, Err, IfOk, IfErr};
ghost use Rattle.command_words.specs.Command.{judge};
ghost use Rattle.command_files.specs.Keeping.{CanRead, KeepsFiles};
ghost use Rattle.command_files.specs.Refusing.{RefusesSo};
ghost use Rattle.command_answers.specs.Judge.{JudgeAnswers, refusal_of_judge};
ghost use Rattle.command_answers.specs.Program.{Answers, RefusesCommand};

use command_files::{Input, Refusal, StreamError, read_stream};
use judge_text::{JudgeError, judge_text};
use outside_io::Files;
use std::alloc::Global;
use text_pieces::Pieces;

/// Why a stream file that is judged is refused.
fn judge_refusal(error: JudgeError) -> Refusal
    ensures { result ≡ refusal_of_judge error }
{
    match error {
        JudgeError::Memory => Refusal::NoMemory,
        error => Refusal::Stream(StreamError::NotWhole(error)),
    }
}

/// The result for a stream file's bytes.
#[tactic(auto, using(crate::proofs::Answering::judge_refused))]
fn judged(alloc: Global, bytes: &[u8]) -> Result<Pieces, Refusal>
    ensures ok { IfOk result (λ text. JudgeAnswers bytes.now (Ok text)) }
    ensures err { IfErr result (RefusesSo (λ r. JudgeAnswers bytes.now (Err r))) }
{
    match judge_text(alloc, bytes) {
        Ok(text) => Ok(Pieces::of(alloc, text)),
        Err(error) => Err(judge_refusal(error)),
    }
}

/// Reads and judges a stream file, and makes the text.
pub fn answer_judge<F: Files>(alloc: Global, files: &mut F, name: &str) -> Result<Pieces, Refusal>
    requires files { CanRead F.Files files.old name.now }
    ensures ok { IfOk result (λ text. Answers (F.entries files.old) (F.readings files.old) (F.readings files.new)
        (judge name.now) (Ok text)) }
    ensures err { IfErr result (RefusesCommand (F.entries files.old) (F.readings files.old) (F.readings files.new)
        (judge name.now) (F.faults files.old) (F.faults files.new)) }
    ensures files { KeepsFiles F.Files files.old files.new }
{
    let bytes = read_stream(alloc, files, name, Input::Stream)?;
    judged(alloc, &bytes)
}
