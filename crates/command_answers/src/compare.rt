//! `compare`: whether actual streams agree with expected ones, within tolerances of time and position, and by how much.
ghost use Rattle.std.specs.Prelude.{◌≡◌, [], ◌∷◌, ⊤, IsTrue, Ok, Err, IfOk, IfErr};
ghost use Rattle.command_words.specs.Command.{compare};
ghost use Rattle.compare_text.specs.Indexed.{file_sections};
ghost use Rattle.command_files.specs.Inputs.{IsWant, sections_said, stream_limit};
ghost use Rattle.command_files.specs.Judged.{by_log};
ghost use Rattle.command_files.specs.Keeping.{CanRead, KeepsFiles};
ghost use Rattle.command_files.specs.Logged.{Logged, RefusesBy};
ghost use Rattle.command_files.specs.Refused.{refused, stream_line};
ghost use Rattle.command_files.specs.Refusing.{RefusesSo};
ghost use Rattle.command_answers.specs.Compare.{GotAnswers, SameAnswers, refusal_of_compare};
ghost use Rattle.command_answers.specs.Sides.{bad_line_of};
ghost use Rattle.command_answers.specs.Program.{Answers, RefusesCommand};

use command_files::{Input, Refusal, StreamError, read_stream};
use compare_text::{CompareError, Comparison, Sections, compare_text};
use outside_io::Files;
use std::alloc::Global;
use text_pieces::Pieces;

/// The two stream files that are compared.
#[derive(Clone, Copy)]
enum Side {
    Want,
    Got,
}

/// The refusal of a stream file with a bad or missing line.
fn bad_line(side: Side, line: u64) -> StreamError
    ensures { refused 1 (stream_line result) ≡ bad_line_of side line }
{
    match side {
        Side::Want => StreamError::BadWant { line },
        Side::Got => StreamError::BadGot { line },
    }
}

/// The sections of a stream file that is compared.
fn sections_in(alloc: Global, bytes: &[u8], side: Side) -> Result<Sections<'_>, Refusal>
    ensures ok { IfOk result (λ sections. sections_said (bad_line_of side) (file_sections bytes.now) ≡ Ok sections) }
    ensures err { IfErr result (RefusesSo
        (λ r. sections_said (bad_line_of side) (file_sections bytes.now) ≡ Err r)) }
{
    match Sections::read(alloc, bytes) {
        Ok(sections) => Ok(sections),
        Err(stream_text::StreamError::BadLine { line }) => {
            Err(Refusal::Stream(bad_line(side, line)))
        }
        Err(stream_text::StreamError::Memory) => Err(Refusal::NoMemory),
    }
}

/// Why compared streams differ.
fn compare_refusal(error: CompareError) -> Refusal
    ensures { result ≡ refusal_of_compare error }
{
    match error {
        CompareError::Memory => Refusal::NoMemory,
        error => Refusal::Stream(StreamError::NotSame(error)),
    }
}

/// The result for actual and expected sections.
#[tactic(auto, using(crate::proofs::Answering::compare_refused))]
fn compared(
    alloc: Global,
    want: &Sections<'_>,
    got: &Sections<'_>,
    rule: Comparison,
) -> Result<Pieces, Refusal>
    ensures ok { IfOk result (λ text. SameAnswers rule want.now got.now (Ok text)) }
    ensures err { IfErr result (RefusesSo (λ r. SameAnswers rule want.now got.now (Err r))) }
{
    match compare_text(alloc, want, got, &rule) {
        Ok(text) => Ok(Pieces::of(alloc, text)),
        Err(error) => Err(compare_refusal(error)),
    }
}

/// Reads and judges the actual streams, and compares them with the expected sections.
fn answer_got<F: Files>(
    alloc: Global,
    files: &mut F,
    want: &Sections<'_>,
    name: &str,
    rule: Comparison,
) -> Result<Pieces, Refusal>
    requires files { CanRead F.Files files.old name.now }
    ensures ok { IfOk result (λ text. Logged (F.entries files.old) (F.readings files.old) (F.readings files.new)
        ((name.now, stream_limit) ∷ [])
        (λ rs. GotAnswers name.now rule (by_log rs) want.now (Ok text))) }
    ensures err { IfErr result (RefusesBy
        (λ x. Logged (F.entries files.old) (F.readings files.old) (F.readings files.new)
        ((name.now, stream_limit) ∷ [])
        (λ rs. GotAnswers name.now rule (by_log rs) want.now (Err x)))
        (Logged (F.entries files.old) (F.readings files.old) (F.readings files.new)
        ((name.now, stream_limit) ∷ []) (λ rs. ⊤)) (F.faults files.old) (F.faults files.new)) }
    ensures files { KeepsFiles F.Files files.old files.new }
{
    let bytes = read_stream(alloc, files, name, Input::Got)?;
    let got = sections_in(alloc, &bytes, Side::Got)?;
    compared(alloc, want, &got, rule)
}

/// Reads and judges two stream files, the expected one first, and makes the text.
pub fn answer_compare<F: Files>(
    alloc: Global,
    files: &mut F,
    want: &str,
    got: &str,
    rule: Comparison,
) -> Result<Pieces, Refusal>
    requires want { CanRead F.Files files.old want.now }
    requires got { IsWant (F.entries files.old) want.now → IsTrue (F.lends files.old got.now) }
    ensures ok { IfOk result (λ text. Answers (F.entries files.old) (F.readings files.old) (F.readings files.new)
        (compare want.now got.now rule.tolerance.us rule.tolerance.pixels rule.want_channel rule.got_channel
        rule.each_move) (Ok text)) }
    ensures err { IfErr result (RefusesCommand (F.entries files.old) (F.readings files.old) (F.readings files.new)
        (compare want.now got.now rule.tolerance.us rule.tolerance.pixels rule.want_channel rule.got_channel
        rule.each_move) (F.faults files.old) (F.faults files.new)) }
    ensures files { KeepsFiles F.Files files.old files.new }
{
    let bytes = read_stream(alloc, files, want, Input::Want)?;
    let sections = sections_in(alloc, &bytes, Side::Want)?;
    answer_got(alloc, files, &sections, got, rule)
}
