//! The texts of help. Each constant is the whole text that the program writes: the man page, the completions and the
//! README take the forms from here.

/// The help of the program: each command with its form and what it prints.
pub const HELP: &str = "usage: inputflinger COMMAND OPTIONS

replay --session FILE --events FILE
    what each window is sent for a recording
race --session FILE --events FILE
    an order of the calls that threads made, and what each window is sent in it
check --session FILE --events FILE --order FILE
    what each window is sent if the calls come in the order that a file lists
verify --stream FILE
    `well formed <channels> <messages>`, if every stream of a file is well-formed
work --seed 0..4294967295 --packets 1..200000
    a summary of the run of a session that is generated from a seed
batch --stream FILE --frame 1..1000000000
    the messages of a stream file as an application receives them, frame by frame
hover --session FILE --events FILE --mouse PATH
    what each window on display 0 is sent for a mouse that hovers
emit --stream FILE --channel 1..64 --device 1..8
    a recording of what a device did in the stream of a channel
inspect --session FILE --events FILE
    what both files hold, and hints at what was probably not meant
why --session FILE --events FILE
    why each finger and each key went where it went
judge --stream FILE
    `channel <id> whole <messages>` for each section, if every stream is whole
compare --want FILE --got FILE --us 0..1000000000 --pixels 0..16384 \
[--want-channel 1..64] [--got-channel 1..64] [--moves none|each]
    `same` and the greatest differences in time and place, if two stream files agree within these

The pages: inputflinger(1), inputflinger-session(5), inputflinger-stream(5), inputflinger-why(5).
";

/// The help of `replay`.
pub const REPLAY: &str = "usage: inputflinger replay --session FILE --events FILE

Reads a session and a recording of getevent -t. Prints a section for each channel: what its window
is sent for the recording, each event, step, timeout and finish at its time.

--session FILE  windows, channels, devices and steps, as TOML; at most 4 MiB
--events FILE   a recording, as getevent -t writes it; at most 32 MiB

statuses:
  0  the text was written
  2  the words are of no form; the line says what is wrong with them
  3  the session or a line of the recording is refused
  4  a file could not be read
  5  the text could not be written
  6  out of memory
  7  a file, the steps of the session or the run is longer than its limit
";

/// The help of `race`.
pub const RACE: &str = "usage: inputflinger race --session FILE --events FILE

Reads a session and a recording, and runs them on threads that share one dispatcher. Prints the
order of the calls that they made, which `check` takes as an order file, and then a section for each
channel in that order. Another run may print another order.

--session FILE  windows, channels, devices and steps, as TOML; at most 4 MiB
--events FILE   a recording, as getevent -t writes it; at most 32 MiB

statuses:
  0  the text was written
  2  the words are of no form; the line says what is wrong with them
  3  the session or a line of the recording is refused
  4  a file could not be read
  5  the text could not be written
  6  out of memory
  7  a file, the steps of the session or the run is longer than its limit
";

/// The help of `check`.
pub const CHECK: &str = "usage: inputflinger check --session FILE --events FILE --order FILE

Reads a session, a recording and an order of calls. Prints a section for each channel, as `replay`
does, for these calls.

--session FILE  windows, channels, devices and steps, as TOML; at most 4 MiB
--events FILE   a recording, as getevent -t writes it; at most 32 MiB
--order FILE    an order of calls, as `race` prints it; at most 64 MiB

statuses:
  0  the text was written
  1  a line of the order is bad, or asks for what is not left
  2  the words are of no form; the line says what is wrong with them
  3  the session or a line of the recording is refused
  4  a file could not be read
  5  the text could not be written
  6  out of memory
  7  a file, the steps of the session or the run is longer than its limit
";

/// The help of `verify`.
pub const VERIFY: &str = "usage: inputflinger verify --stream FILE

Reads sections, as `replay` prints them. Prints how many channels and messages they have, if each
message is allowed where it stands.

--stream FILE   sections of messages; at most 64 MiB

statuses:
  0  the text was written
  1  a line is bad, or its message is not allowed there
  2  the words are of no form; the line says what is wrong with them
  4  a file could not be read
  5  the text could not be written
  6  out of memory
  7  a file is longer than its limit
";

/// The help of `work`.
pub const WORK: &str = "usage: inputflinger work --seed 0..4294967295 --packets 1..200000

Generates a session of five windows and a recording of ten fingers, runs them, and prints how many
messages each channel was sent. The same numbers give the same text. It reads no file.

--seed N        0 to 4294967295; the number that everything is generated from
--packets P     1 to 200000; how many packets the recording has

statuses:
  0  the text was written
  2  the words are of no form; the line says what is wrong with them
  5  the text could not be written
  6  out of memory
  7  the run is longer than its limit
";

/// The help of `batch`.
pub const BATCH: &str = "usage: inputflinger batch --stream FILE --frame 1..1000000000

Reads sections, as `replay` prints them. Prints them as an application that begins a frame every
N microseconds receives them: the moves since the last frame come as one.

--stream FILE   sections of messages; at most 64 MiB
--frame N       1 to 1000000000; microseconds from one frame to the next

statuses:
  0  the text was written
  1  a line is bad, or its message is not allowed there
  2  the words are of no form; the line says what is wrong with them
  4  a file could not be read
  5  the text could not be written
  6  out of memory
  7  a file is longer than its limit
";

/// The help of `hover`.
pub const HOVER: &str = "usage: inputflinger hover --session FILE --events FILE --mouse PATH

Reads a session and a recording. Prints what each window on display 0 is sent for the mouse with
this path: where it enters, moves and leaves.

--session FILE  windows, channels, devices and steps, as TOML; at most 4 MiB
--events FILE   a recording, as getevent -t writes it; at most 32 MiB
--mouse PATH    the path of the mouse in the recording; it begins with / and has no blank

statuses:
  0  the text was written
  2  the words are of no form; the line says what is wrong with them
  3  the session or a line of the recording is refused
  4  a file could not be read
  5  the text could not be written
  6  out of memory
  7  a file, the steps of the session or the run is longer than its limit
";

/// The help of `emit`.
pub const EMIT: &str = "usage: inputflinger emit --stream FILE --channel 1..64 --device 1..8

Reads sections, as `replay` prints them. Prints a recording of getevent -t of what the device did in
the first section of the channel, with as few events as possible.

--stream FILE   sections of messages; at most 64 MiB
--channel N     1 to 64; the channel of the section
--device D      1 to 8; the device of its motions

statuses:
  0  the text was written
  1  a line is bad, or the section is not there or cannot be written as a recording
  2  the words are of no form; the line says what is wrong with them
  4  a file could not be read
  5  the text could not be written
  6  out of memory
  7  the file or the recording is longer than its limit
";

/// The help of `inspect`.
pub const INSPECT: &str = "usage: inputflinger inspect --session FILE --events FILE

Reads a session and a recording, and runs nothing. Prints the lines and events of the recording by
kind, counts of each device, keys of the session that nothing reads, and hints at what was probably
not meant.

--session FILE  windows, channels, devices and steps, as TOML; at most 4 MiB
--events FILE   a recording, as getevent -t writes it; at most 32 MiB

statuses:
  0  the text was written
  2  the words are of no form; the line says what is wrong with them
  3  the session or a line of the recording is refused
  4  a file could not be read
  5  the text could not be written
  6  out of memory
  7  a file or the steps of the session are longer than their limit
";

/// The help of `why`.
pub const WHY: &str = "usage: inputflinger why --session FILE --events FILE

Reads a session and a recording, and runs them as `replay` does. Prints a line for each thing that
decided where a finger or a key went.

--session FILE  windows, channels, devices and steps, as TOML; at most 4 MiB
--events FILE   a recording, as getevent -t writes it; at most 32 MiB

statuses:
  0  the text was written
  2  the words are of no form; the line says what is wrong with them
  3  the session or a line of the recording is refused
  4  a file could not be read
  5  the text could not be written
  6  out of memory
  7  a file, the steps of the session or the run is longer than its limit
";

/// The help of `judge`.
pub const JUDGE: &str = "usage: inputflinger judge --stream FILE

Reads sections, as `replay` prints them. Prints how many messages each has, if each stream is
well-formed and nothing is down at its end.

--stream FILE   sections of messages; at most 64 MiB

statuses:
  0  the text was written
  1  a line is bad, a message is not allowed there, or a section is not whole
  2  the words are of no form; the line says what is wrong with them
  4  a file could not be read
  5  the text could not be written
  6  out of memory
  7  a file is longer than its limit
";

/// The help of `compare`.
pub const COMPARE: &str =
    "usage: inputflinger compare --want FILE --got FILE --us 0..1000000000 --pixels 0..16384
    [--want-channel 1..64] [--got-channel 1..64] [--moves none|each]

Reads the sections that are wanted and those that came. Prints how many sections and points agree,
and the greatest differences in time and place.

--want FILE        sections of messages that are wanted; at most 64 MiB
--got FILE         sections of messages that came; at most 64 MiB
--us N             0 to 1000000000; microseconds that two points may differ by
--pixels N         0 to 16384; pixels that they may differ by on each axis
--want-channel C   1 to 64; only the sections of this channel are wanted
--got-channel C    1 to 64; only the sections of this channel came
--moves M          each: every message is a point; none, or absent: moves are no points

statuses:
  0  the text was written
  1  a line is bad, or the files differ; the line says where and by how much
  2  the words are of no form; the line says what is wrong with them
  4  a file could not be read
  5  the text could not be written
  6  out of memory
  7  a file is longer than its limit
";
