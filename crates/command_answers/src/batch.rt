//! `batch`: the batches that an application receives from a stream file, frame by frame.
ghost use Rattle.std.specs.Prelude.{◌≡◌, ◌≤◌, Ok, Err, IfOk, IfErr};
ghost use Rattle.command_words.specs.Command.{batch};
ghost use Rattle.command_files.specs.Keeping.{CanRead, KeepsFiles};
ghost use Rattle.command_files.specs.Refusing.{RefusesSo};
ghost use Rattle.command_answers.specs.Batch.{BatchAnswers, refusal_of_file};
ghost use Rattle.command_answers.specs.Program.{Answers, RefusesCommand};

use batch_text::batch_text;
use command_files::{Input, Refusal, StreamError, read_stream};
use outside_io::Files;
use std::alloc::Global;
use stream_judge::FileError;
use text_pieces::Pieces;

/// Why a stream file is refused.
fn stream_refusal(error: FileError) -> Refusal
    ensures { result ≡ refusal_of_file error }
{
    match error {
        FileError::BadLine { line } => Refusal::Stream(StreamError::BadLine { line }),
        FileError::NotWellFormed { line } => Refusal::Stream(StreamError::NotWellFormed { line }),
        FileError::Memory => Refusal::NoMemory,
    }
}

/// The batches of a stream file's messages.
#[tactic(auto, using(crate::proofs::Answering::batch_refused))]
fn batches_of(alloc: Global, bytes: &[u8], frame: u64) -> Result<Pieces, Refusal>
    requires { 1 ≤ frame }
    ensures ok { IfOk result (λ text. BatchAnswers frame bytes.now (Ok text)) }
    ensures err { IfErr result (RefusesSo (λ r. BatchAnswers frame bytes.now (Err r))) }
{
    match batch_text(alloc, bytes, frame) {
        Ok(text) => Ok(Pieces::of(alloc, text)),
        Err(error) => Err(stream_refusal(error)),
    }
}

/// Reads and judges a stream file, and makes the text of its batches.
pub fn answer_batch<F: Files>(
    alloc: Global,
    files: &mut F,
    name: &str,
    frame: u64,
) -> Result<Pieces, Refusal>
    requires files { CanRead F.Files files.old name.now }
    requires frame { 1 ≤ frame }
    ensures ok { IfOk result (λ text. Answers (F.entries files.old) (F.readings files.old) (F.readings files.new)
        (batch name.now frame) (Ok text)) }
    ensures err { IfErr result (RefusesCommand (F.entries files.old) (F.readings files.old) (F.readings files.new)
        (batch name.now frame) (F.faults files.old) (F.faults files.new)) }
    ensures files { KeepsFiles F.Files files.old files.new }
{
    let bytes = read_stream(alloc, files, name, Input::Stream)?;
    batches_of(alloc, &bytes, frame)
}
