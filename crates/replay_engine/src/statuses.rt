//! The lines that say why a command writes no text. None of them allocates memory.
ghost use Rattle.std.specs.Prelude.{◌≡◌, ◌++◌, codes, decimal};
ghost use Rattle.std.specs.Fmt.{signed_decimal};
ghost use Rattle.session_plan.specs.ErrorLine.{error_line, refused_line};
ghost use Rattle.compare_text.specs.Lines.{refusal_line as compare_line};
ghost use Rattle.text_output.specs.Passing.{Prints};
ghost use Rattle.command_words.specs.Fault.{fault_line};
ghost use Rattle.command_words.specs.FaultView.{fault_view};
ghost use Rattle.command_files.specs.Refused.{order_line, read_failed, recording_line, stream_line, too_long};
ghost use Rattle.command_files.specs.RefusalView.{input_word, subject_word};

use crate::differing::tell_differs;
use crate::whole::tell_whole;
use command_files::{Input, OrderError, StreamError, Subject};
use command_words::{Fault, shown};
use compare_text::CompareError;
use itoa::Buffer;
use key_layout::LayoutError;
use outside_io::Sink;
use raw_events::LineError;
use session_plan::PlanError;
use text_output::{tell, tell_named, tell_pair};

/// Prints what is wrong with words.
pub fn tell_fault<E: Sink>(err: &mut E, fault: &Fault<'_>)
    ensures { Prints E.Sink err.old err.new (fault_line (fault_view fault.now) ++ codes "\n") }
{
    match fault {
        Fault::NoCommand => tell(err, "words: NoCommand\n"),
        Fault::UnknownCommand(word) => tell_named(err, "words: UnknownCommand ", shown(word)),
        Fault::UnknownOption(word) => tell_named(err, "words: UnknownOption ", shown(word)),
        Fault::Twice(option) => tell_named(err, "words: Twice ", shown(option)),
        Fault::NoValue(option) => tell_named(err, "words: NoValue ", shown(option)),
        Fault::BadValue(option, value) => {
            tell_pair(err, "words: BadValue ", shown(option), shown(value));
        }
        Fault::Missing(option) => tell_named(err, "words: Missing ", shown(option)),
    }
}

/// Prints a line that ends with a number.
pub fn tell_number<E: Sink>(err: &mut E, words: &str, number: u64)
    ensures { Prints E.Sink err.old err.new ((words.now ++ decimal number) ++ codes "\n") }
{
    let mut digits = Buffer::new();
    tell_named(err, words, digits.format(number));
}

/// Prints a line that ends with two numbers.
fn tell_numbers<E: Sink>(err: &mut E, words: &str, first: u64, second: u64)
    ensures { Prints E.Sink err.old err.new
        ((words.now ++ (decimal first ++ (codes " " ++ decimal second))) ++ codes "\n") }
{
    let mut digits = Buffer::new();
    let mut others = Buffer::new();
    tell_pair(err, words, digits.format(first), others.format(second));
}

/// The number of the refused line of a layout.
fn line_of(error: LayoutError) -> u64
    ensures { result ≡ refused_line error }
{
    match error {
        LayoutError::BadLine { line } => line,
        LayoutError::BadName { line } => line,
        LayoutError::Twice { line, .. } => line,
        LayoutError::Memory => 0,
    }
}

/// Prints the key of a number that is outside its range.
fn tell_out_of_range<E: Sink>(err: &mut E, key: &str, value: i64)
    ensures { Prints E.Sink err.old err.new
        ((codes "session: OutOfRange " ++ (key.now ++ (codes " " ++ signed_decimal value))) ++ codes "\n") }
{
    let mut digits = Buffer::new();
    tell_pair(err, "session: OutOfRange ", key, digits.format(value));
}

/// Prints why a session is refused.
pub fn tell_session<E: Sink>(err: &mut E, error: &PlanError)
    ensures { Prints E.Sink err.old err.new (error_line error.now ++ codes "\n") }
{
    match error {
        PlanError::NotToml => tell(err, "session: NotToml\n"),
        PlanError::Missing { key } => tell_named(err, "session: Missing ", key.as_str()),
        PlanError::Wrong { key } => tell_named(err, "session: Wrong ", key.as_str()),
        PlanError::UnknownName { key } => tell_named(err, "session: UnknownName ", key.as_str()),
        PlanError::OutOfRange { key, value } => tell_out_of_range(err, key.as_str(), *value),
        PlanError::BadLayout { device, error } => {
            tell_numbers(
                err,
                "session: BadLayout ",
                u64::from(*device),
                line_of(*error),
            );
        }
        PlanError::Memory => tell(err, "\n"),
    }
}

/// Prints why a recording is refused.
pub fn tell_recording<E: Sink>(err: &mut E, error: &LineError)
    ensures { Prints E.Sink err.old err.new (recording_line error.now ++ codes "\n") }
{
    match error {
        LineError::BadLine { line } => tell_number(err, "recording: BadLine ", *line),
        LineError::NoMoment { line } => tell_number(err, "recording: NoMoment ", *line),
        LineError::TooLong { line } => tell_number(err, "recording: TooLong ", *line),
        LineError::Memory => tell(err, "\n"),
    }
}

/// Prints why an order file is refused.
pub fn tell_order<E: Sink>(err: &mut E, error: OrderError)
    ensures { Prints E.Sink err.old err.new (order_line error ++ codes "\n") }
{
    match error {
        OrderError::BadLine { line } => tell_number(err, "order: BadLine ", line),
        OrderError::NoStep { line } => tell_number(err, "order: NoStep ", line),
    }
}

/// Prints where streams differ.
#[tactic(auto, unfolding(compare_text::specs::Lines::refusal_line))]
fn tell_same<E: Sink>(err: &mut E, error: CompareError)
    ensures { Prints E.Sink err.old err.new (compare_line error ++ codes "\n") }
{
    match error {
        CompareError::Differs { want, got, what } => tell_differs(err, want, got, what),
        CompareError::Missing { want } => tell_number(err, "compare: Missing ", want),
        CompareError::Added { got } => tell_number(err, "compare: Added ", got),
        CompareError::NoSection { want } => tell_number(err, "compare: NoSection ", want),
        CompareError::NewSection { got } => tell_number(err, "compare: NewSection ", got),
        CompareError::Memory => tell(err, "\n"),
    }
}

/// Prints why a stream file is refused.
pub fn tell_stream<E: Sink>(err: &mut E, error: &StreamError)
    ensures { Prints E.Sink err.old err.new (stream_line error.now ++ codes "\n") }
{
    match error {
        StreamError::BadLine { line } => tell_number(err, "stream: BadLine ", *line),
        StreamError::NotWellFormed { line } => tell_number(err, "stream: NotWellFormed ", *line),
        StreamError::NoChannel => tell(err, "stream: NoChannel\n"),
        StreamError::TooLate { line } => tell_number(err, "stream: TooLate ", *line),
        StreamError::NotAssignable { line } => tell_number(err, "stream: NotAssignable ", *line),
        StreamError::NotWhole(error) => tell_whole(err, error),
        StreamError::BadWant { line } => tell_number(err, "want: BadLine ", *line),
        StreamError::BadGot { line } => tell_number(err, "got: BadLine ", *line),
        StreamError::NotSame(error) => tell_same(err, *error),
    }
}

/// The word for what exceeded its limit.
fn subject_word(what: Subject) -> &'static str
    ensures { result.now ≡ subject_word what }
{
    match what {
        Subject::Session => "session",
        Subject::Recording => "recording",
        Subject::Order => "order",
        Subject::Steps => "steps",
        Subject::Stream => "stream",
        Subject::Run => "run",
    }
}

/// Prints what exceeded its limit.
pub fn tell_too_long<E: Sink>(err: &mut E, what: Subject)
    ensures { Prints E.Sink err.old err.new (too_long (subject_word what)).line }
{
    tell_named(err, "too long: ", subject_word(what));
}

/// The word for a file.
fn input_word(file: Input) -> &'static str
    ensures { result.now ≡ input_word file }
{
    match file {
        Input::Session => "session",
        Input::Recording => "recording",
        Input::Order => "order",
        Input::Stream => "stream",
        Input::Want => "want",
        Input::Got => "got",
    }
}

/// Prints which file could not be read.
pub fn tell_unread<E: Sink>(err: &mut E, file: Input)
    ensures { Prints E.Sink err.old err.new (read_failed (input_word file)).line }
{
    tell_named(err, input_word(file), ": ReadFailed");
}
