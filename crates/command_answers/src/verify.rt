//! `verify`: how many channels and messages a stream file has, if it is well-formed.
ghost use Rattle.std.specs.Prelude.{◌≡◌, ◌+◌, ◌^◌, ◌<◌, List, ◌∷◌, Ok, Err, None, IfOk, IfErr, OnOk};
ghost use Rattle.command_words.specs.Command.{verify};
ghost use Rattle.command_answers.specs.Program.{Answers, RefusesCommand};
ghost use Rattle.command_answers.specs.Verify.{StreamAnswers};
ghost use Rattle.std.specs.Option.{option_or};
ghost use Rattle.input_types.specs.declared.message.Message.{Message as Told};
ghost use Rattle.command_answers.specs.Judging.{Knows, Judges, break_at};
ghost use Rattle.command_files.specs.Keeping.{CanRead, KeepsFiles};
ghost use Rattle.command_files.specs.Refusing.{RefusesSo};
ghost use Rattle.command_answers.specs.Verify.{said, verdict};

use command_files::{Input, Refusal, StreamError, read_stream};
use gesture_verifier::Verifier;
use input_types::Message;
use outside_io::Files;
use std::alloc::{AllocError, Global};
use std::marker::Model;
use stream_text::{StreamLine, StreamLines};
use text_pieces::Pieces;

/// What is known about a stream file after some of its lines.
#[derive(Drop)]
struct Judge {
    /// The verifier of the open section, up to the first break.
    verifier: Verifier,
    /// The line of the first message that is not allowed where it stands.
    broken: Option<u64>,
    channels: u64,
    messages: u64,
}

impl Model for Judge {
    ghost use Rattle.command_answers.specs.Judging.{Known};

    ghost Value = { Known };

    ghost view = { λ j.
        record { tables = j.verifier; broken = j.broken; channels = j.channels; messages = j.messages } };
}

impl Judge {
    ghost use Rattle.std.specs.Prelude.{[]};

    /// A judge that has seen no line yet.
    fn new(alloc: Global) -> Judge
        ensures knows { Knows [] result }
        ensures none { result.broken ≡ None }
        ensures counts { (result.channels ≡ 0) × (result.messages ≡ 0) }
    {
        Judge {
            verifier: Verifier::new(alloc),
            broken: None,
            channels: 0,
            messages: 0,
        }
    }

    /// Judges the next line, whose number this is.
    fn judge_line(&mut self, alloc: Global, number: u64, line: &StreamLine) -> Result<(), Refusal>
        requires room { (self.old.channels + 1 < 2 ^ 64) × (self.old.messages + 1 < 2 ^ 64) }
        ensures ok { (past : List Told) → Knows past self.old
            → OnOk result (Judges past number line.now self.old self.new) }
        ensures err { IfErr result (λ e. e ≡ Refusal.NoMemory) }
    {
        match line {
            StreamLine::Channel { .. } => {
                self.verifier = Verifier::new(alloc);
                self.channels += 1;
                Ok(())
            }
            StreamLine::Message(message) => {
                self.judge_message(number, message)?;
                self.messages += 1;
                Ok(())
            }
            StreamLine::End { .. } | StreamLine::Anr { .. } => Ok(()),
        }
    }

    /// Judges the message of a line, unless the rule broke before it.
    fn judge_message(&mut self, number: u64, message: &Message) -> Result<(), Refusal>
        ensures knows { (past : List Told) → Knows past self.old → OnOk result (Knows (message.now ∷ past) self.new) }
        ensures broken { (past : List Told) → Knows past self.old
            → OnOk result (self.new.broken
            ≡ option_or self.old.broken (break_at past number (StreamLine.Message message.now))) }
        ensures counts { (self.new.channels ≡ self.old.channels) × (self.new.messages ≡ self.old.messages) }
        ensures err { IfErr result (λ e. e ≡ Refusal.NoMemory) }
    {
        if self.broken.is_some() {
            return Ok(());
        }
        if !self.verifier.accept(message)? {
            self.broken = Some(number);
        }
        Ok(())
    }

    /// The result at the end of the file.
    fn verdict(&self, alloc: Global) -> Result<Vec<u8>, Refusal>
        ensures ok { IfOk result (λ text. said self.now.broken self.now.channels self.now.messages ≡ Ok text.items) }
        ensures err { IfErr result (RefusesSo (λ r. said self.now.broken self.now.channels self.now.messages ≡ Err r)) }
    {
        match self.broken {
            Some(line) => Err(Refusal::Stream(StreamError::NotWellFormed { line })),
            None => Ok(well_formed(alloc, self.channels, self.messages)?),
        }
    }
}

/// The text for a well-formed file with this many channels and messages.
fn well_formed(alloc: Global, channels: u64, messages: u64) -> Result<Vec<u8>, AllocError>
    ensures { IfOk result (λ text. said None channels messages ≡ Ok text.items) }
{
    let line = format!(in alloc; "well formed {channels} {messages}\n")?;
    Ok(line.into_bytes())
}

/// The text for the bytes of a stream file: how many channels and messages it has, if it is well-formed. It judges the
/// lines one by one and keeps none of them.
fn verdict_text(alloc: Global, bytes: &[u8]) -> Result<Vec<u8>, Refusal>
    ensures ok { IfOk result (λ text. verdict bytes.now ≡ Ok text.items) }
    ensures err { IfErr result (RefusesSo (λ r. verdict bytes.now ≡ Err r)) }
{
    let mut lines = match StreamLines::new(bytes) {
        Ok(lines) => lines,
        Err(line) => return Err(Refusal::Stream(StreamError::BadLine { line })),
    };
    let mut judge = Judge::new(alloc);
    let mut line = StreamLine::Channel { id: 0 };
    'lines: loop {
        match lines.next_into(&mut line) {
            Ok(Some(number)) => judge.judge_line(alloc, number, &line)?,
            Ok(None) => return judge.verdict(alloc),
            Err(line) => return Err(Refusal::Stream(StreamError::BadLine { line })),
        }
    }
}

/// The result for a stream file's bytes.
fn verdict_of(alloc: Global, bytes: &[u8]) -> Result<Pieces, Refusal>
    ensures ok { IfOk result (λ text. StreamAnswers bytes.now (Ok text)) }
    ensures err { IfErr result (RefusesSo (λ r. StreamAnswers bytes.now (Err r))) }
{
    let text = verdict_text(alloc, bytes)?;
    Ok(Pieces::of(alloc, text))
}

/// Reads and judges a stream file, and makes the text.
pub fn answer_verify<F: Files>(alloc: Global, files: &mut F, name: &str) -> Result<Pieces, Refusal>
    requires files { CanRead F.Files files.old name.now }
    ensures ok { IfOk result (λ text. Answers (F.entries files.old) (F.readings files.old) (F.readings files.new)
        (verify name.now) (Ok text)) }
    ensures err { IfErr result (RefusesCommand (F.entries files.old) (F.readings files.old) (F.readings files.new)
        (verify name.now) (F.faults files.old) (F.faults files.new)) }
    ensures files { KeepsFiles F.Files files.old files.new }
{
    let bytes = read_stream(alloc, files, name, Input::Stream)?;
    verdict_of(alloc, &bytes)
}
