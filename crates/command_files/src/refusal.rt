//! Why a command writes no text.
ghost use Rattle.std.specs.Prelude.{◌≡◌};
ghost use Rattle.command_files.specs.declared.refusal.Refusal.TheVariants.{NoMemory};

use compare_text::CompareError;
use judge_text::JudgeError;
use raw_events::LineError;
use session_plan::PlanError;
use std::alloc::AllocError;

/// A file that a command reads, named by what the command reads it for.
#[derive(Clone, Copy, Debug, PartialEq, Eq)]
pub enum Input {
    Session,
    Recording,
    Order,
    /// The streams of a command that reads one file of them.
    Stream,
    /// The expected streams.
    Want,
    /// The actual streams.
    Got,
}

/// What exceeded its limit.
#[derive(Clone, Copy, Debug, PartialEq, Eq)]
pub enum Subject {
    /// The session has more bytes than 4 MiB.
    Session,
    /// The recording has more bytes than 32 MiB.
    Recording,
    /// The order file has more bytes than 64 MiB.
    Order,
    /// The session has more steps than 100,000.
    Steps,
    /// The stream file has more bytes than 64 MiB.
    Stream,
    /// The run has more than 4,000,000 calls or messages, the order more than 8,000,000 lines, the recording of a
    /// `check` or a `race` more than 20,000 args, or the recording that is written more than 32 MiB.
    Run,
}

/// Why an order file is refused. Lines are numbered from 1.
#[derive(Clone, Copy, Debug, PartialEq, Eq)]
pub enum OrderError {
    /// The line does not follow the grammar of order files, or is missing.
    BadLine { line: u64 },
    /// The line asks for args or for a step of a lane, and none is left.
    NoStep { line: u64 },
}

/// Why a stream file is refused. Lines are numbered from 1.
#[derive(Debug, Drop)]
pub enum StreamError {
    /// The line does not follow the grammar of stream files, or is missing.
    BadLine { line: u64 },
    /// The message of the line may not come after those before it in its section.
    NotWellFormed { line: u64 },
    /// There is no section of the channel.
    NoChannel,
    /// The time of the line's motion is too late for an event of a recording.
    TooLate { line: u64 },
    /// The motion of the line has a pointer whose id cooking would not give it.
    NotAssignable { line: u64 },
    /// A section is not whole, or none has a message.
    NotWhole(JudgeError),
    /// The line of the expected streams does not follow the grammar of stream files, or is missing.
    BadWant { line: u64 },
    /// The line of the actual streams does not follow the grammar of stream files, or is missing.
    BadGot { line: u64 },
    /// The actual streams differ from the expected ones.
    NotSame(CompareError),
}

/// Why a run writes no text.
#[derive(Debug, Drop)]
pub enum Refusal {
    /// The session is refused.
    Session(PlanError),
    /// A line of the recording is refused.
    Recording(LineError),
    /// An order file is refused.
    Order(OrderError),
    /// A stream file is refused.
    Stream(StreamError),
    /// The file could not be opened or read.
    ReadFailed(Input),
    /// There was not enough memory.
    NoMemory,
    TooLong(Subject),
}

impl From<AllocError> for Refusal {
    ghost from_gives = { λ _ e. e ≡ NoMemory };

    fn from(_error: AllocError) -> Refusal {
        Refusal::NoMemory
    }
}
