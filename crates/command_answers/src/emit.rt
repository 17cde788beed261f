//! `emit`: what a device did in a channel of a stream file, as a recording.
ghost use Rattle.std.specs.Prelude.{◌≡◌, ◌≤◌, Ok, Err, IfOk, IfErr, length};
ghost use Rattle.command_words.specs.Command.{emit};
ghost use Rattle.emit_text.specs.Emitted.{IsNotSpent};
ghost use Rattle.command_files.specs.Keeping.{CanRead, KeepsFiles};
ghost use Rattle.command_files.specs.Refusing.{RefusesSo};
ghost use Rattle.command_answers.specs.Emit.{EmitAnswers, refusal_of_emit};
ghost use Rattle.command_answers.specs.Program.{Answers, RefusesCommand};

use command_files::{Input, Refusal, StreamError, Subject, read_stream};
use emit_text::{EmitError, emit_text};
use input_types::DeviceId;
use outside_io::Files;
use std::alloc::Global;
use text_pieces::Pieces;

/// Why a stream is not written as a recording. A file within the limit has too few lines to use up all slots or
/// tracking ids, so no refusal says so.
fn emit_refusal(error: EmitError) -> Refusal
    requires { IsNotSpent error }
    ensures { result ≡ refusal_of_emit error }
{
    match error {
        EmitError::BadLine { line } => Refusal::Stream(StreamError::BadLine { line }),
        EmitError::NotWellFormed { line } => Refusal::Stream(StreamError::NotWellFormed { line }),
        EmitError::NoChannel => Refusal::Stream(StreamError::NoChannel),
        EmitError::TooLate { line } => Refusal::Stream(StreamError::TooLate { line }),
        EmitError::NotAssignable { line } => Refusal::Stream(StreamError::NotAssignable { line }),
        EmitError::TooLong => Refusal::TooLong(Subject::Run),
        EmitError::Memory => Refusal::NoMemory,
        EmitError::Spent { .. } => unreachable!(),
    }
}

/// What a device did in a channel of a stream file, as a recording.
#[tactic(auto, using(crate::proofs::Answering::emit_answered, crate::proofs::Answering::emit_refuses))]
fn emitted(alloc: Global, bytes: &[u8], channel: u32, device: DeviceId) -> Result<Pieces, Refusal>
    requires { length bytes.now ≤ 67108864 }
    ensures ok { IfOk result (λ text. EmitAnswers channel device bytes.now (Ok text)) }
    ensures err { IfErr result (RefusesSo (λ r. EmitAnswers channel device bytes.now (Err r))) }
{
    match emit_text(alloc, bytes, channel, device) {
        Ok(text) => Ok(Pieces::of(alloc, text)),
        Err(error) => Err(emit_refusal(error)),
    }
}

/// Reads and judges a stream file, and makes the recording of a device in it.
pub fn answer_emit<F: Files>(
    alloc: Global,
    files: &mut F,
    name: &str,
    channel: u32,
    device: DeviceId,
) -> Result<Pieces, Refusal>
    requires files { CanRead F.Files files.old name.now }
    ensures ok { IfOk result (λ text. Answers (F.entries files.old) (F.readings files.old) (F.readings files.new)
        (emit name.now channel device) (Ok text)) }
    ensures err { IfErr result (RefusesCommand (F.entries files.old) (F.readings files.old) (F.readings files.new)
        (emit name.now channel device) (F.faults files.old) (F.faults files.new)) }
    ensures files { KeepsFiles F.Files files.old files.new }
{
    let bytes = read_stream(alloc, files, name, Input::Stream)?;
    emitted(alloc, &bytes, channel, device)
}
