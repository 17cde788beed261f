//! The files of a command, each judged once it is read: a session, a recording, an order file and a stream file.
ghost use Rattle.std.specs.Prelude.{◌≡◌, ◌≤◌, Ok, Err, IfOk, IfErr, length};
ghost use Rattle.raw_events.specs.Line.{known};
ghost use Rattle.raw_events.specs.Recording.{recorded};
ghost use Rattle.session_plan.specs.Session.{session_of};
ghost use Rattle.session_plan.specs.Valid.{IsPlan};
ghost use Rattle.session_plan.specs.View.{plan_view};
ghost use Rattle.stream_text.specs.OrderText.{order_of};
ghost use Rattle.command_files.specs.Inputs.{events_file, lines_judged, order_file, order_lines, plan_judged};
ghost use Rattle.command_files.specs.Inputs.{session_file, stream_kind};
ghost use Rattle.command_files.specs.Judged.{IsJudged, judged};
ghost use Rattle.command_files.specs.Keeping.{CanRead, KeepsFiles};
ghost use Rattle.command_files.specs.Logged.{IsRead, RefusesFile};
ghost use Rattle.command_files.specs.ReadErrors.{refusal_of_read};
ghost use Rattle.command_files.specs.RefusalView.{subject_of};
ghost use Rattle.command_files.specs.Refusing.{RefusesSo};

use crate::files::{ReadError, read_file};
use crate::recording::recording_refusal;
use crate::refusal::{Input, OrderError, Refusal, Subject};
use input_types::DeviceId;
use outside_io::Files;
use raw_events::{RawEvent, events_of};
use session_plan::{Plan, PlanError};
use std::alloc::Global;
use stream_text::Order;

/// The most bytes of a session: 4 MiB.
pub(crate) const SESSION_LIMIT: usize = 4194304;

/// The most bytes of a recording: 32 MiB.
pub const RECORDING_LIMIT: usize = 33554432;

/// The most bytes of an order file: 64 MiB.
const ORDER_LIMIT: usize = 67108864;

/// The most bytes of a stream file: 64 MiB.
const STREAM_LIMIT: usize = 67108864;

/// The most steps of a session.
const STEP_LIMIT: usize = 100000;

/// The plan that the bytes of a session give.
pub(crate) fn plan_from(alloc: Global, bytes: &[u8]) -> Result<Plan, Refusal>
    ensures ok { IfOk result (λ plan. plan_judged (session_of bytes.now) ≡ Ok (plan_view plan)) }
    ensures valid { IfOk result IsPlan }
    ensures err { IfErr result (RefusesSo (λ r. plan_judged (session_of bytes.now) ≡ Err r)) }
{
    let plan = match Plan::read(alloc, bytes) {
        Ok(plan) => plan,
        Err(PlanError::Memory) => return Err(Refusal::NoMemory),
        Err(error) => return Err(Refusal::Session(error)),
    };
    if plan.steps.len() > STEP_LIMIT {
        return Err(Refusal::TooLong(Subject::Steps));
    }
    Ok(plan)
}

/// What is reported as too long if such a file is longer than its limit.
fn subject_of(file: Input) -> Subject
    ensures { result ≡ subject_of file }
{
    match file {
        Input::Session => Subject::Session,
        Input::Recording => Subject::Recording,
        Input::Order => Subject::Order,
        Input::Stream | Input::Want | Input::Got => Subject::Stream,
    }
}

/// The refusal of a file that was not read to its end.
pub fn read_refusal(error: ReadError, file: Input) -> Refusal
    ensures { result ≡ refusal_of_read file error }
{
    match error {
        ReadError::Failed => Refusal::ReadFailed(file),
        ReadError::Memory => Refusal::NoMemory,
        ReadError::TooLong => Refusal::TooLong(subject_of(file)),
    }
}

/// Reads and judges the session.
pub fn read_session<F: Files>(alloc: Global, files: &mut F, name: &str) -> Result<Plan, Refusal>
    requires files { CanRead F.Files files.old name.now }
    ensures ok { IfOk result (λ plan. IsRead (F.entries files.old) (F.readings files.old) (F.readings files.new)
        name.now session_file (Ok (plan_view plan))) }
    ensures told { IfOk result
        (λ plan. IsJudged (F.entries files.old) name.now (judged session_file) (Ok (plan_view plan))) }
    ensures valid { IfOk result IsPlan }
    ensures err { IfErr result (RefusesFile (F.entries files.old) (F.readings files.old) (F.readings files.new)
        name.now session_file (F.faults files.old) (F.faults files.new)) }
    ensures files { KeepsFiles F.Files files.old files.new }
{
    match read_file(alloc, files, name, SESSION_LIMIT) {
        Ok(bytes) => plan_from(alloc, &bytes),
        Err(error) => Err(read_refusal(error, Input::Session)),
    }
}

/// Reads and judges a recording of these devices.
pub fn read_events<F: Files>(
    alloc: Global,
    files: &mut F,
    devices: &[(String, DeviceId)],
    name: &str,
) -> Result<Vec<RawEvent>, Refusal>
    requires files { CanRead F.Files files.old name.now }
    ensures ok { IfOk result (λ events. IsRead (F.entries files.old) (F.readings files.old) (F.readings files.new)
        name.now (events_file (known devices.now)) (Ok events.items)) }
    ensures told { IfOk result (λ events. IsJudged (F.entries files.old) name.now
        (judged (events_file (known devices.now))) (Ok events.items)) }
    ensures err { IfErr result (RefusesFile (F.entries files.old) (F.readings files.old) (F.readings files.new)
        name.now (events_file (known devices.now)) (F.faults files.old) (F.faults files.new)) }
    ensures files { KeepsFiles F.Files files.old files.new }
{
    match read_file(alloc, files, name, RECORDING_LIMIT) {
        Ok(bytes) => events_in(alloc, devices, &bytes),
        Err(error) => Err(read_refusal(error, Input::Recording)),
    }
}

/// The events of a recording's bytes.
fn events_in(
    alloc: Global,
    devices: &[(String, DeviceId)],
    bytes: &[u8],
) -> Result<Vec<RawEvent>, Refusal>
    ensures ok { IfOk result (λ events. lines_judged (recorded (known devices.now) bytes.now) ≡ Ok events.items) }
    ensures err { IfErr result (RefusesSo (λ r. lines_judged (recorded (known devices.now) bytes.now) ≡ Err r)) }
{
    match events_of(alloc, devices, bytes) {
        Ok(events) => Ok(events),
        Err(error) => Err(recording_refusal(error)),
    }
}

/// Reads and judges an order file.
pub fn read_order<F: Files>(alloc: Global, files: &mut F, name: &str) -> Result<Order, Refusal>
    requires files { CanRead F.Files files.old name.now }
    ensures ok { IfOk result (λ order. IsRead (F.entries files.old) (F.readings files.old) (F.readings files.new)
        name.now order_file (Ok order)) }
    ensures err { IfErr result (RefusesFile (F.entries files.old) (F.readings files.old) (F.readings files.new)
        name.now order_file (F.faults files.old) (F.faults files.new)) }
    ensures files { KeepsFiles F.Files files.old files.new }
{
    match read_file(alloc, files, name, ORDER_LIMIT) {
        Ok(bytes) => order_in(alloc, &bytes),
        Err(error) => Err(read_refusal(error, Input::Order)),
    }
}

/// The order of an order file's bytes.
fn order_in(alloc: Global, bytes: &[u8]) -> Result<Order, Refusal>
    ensures ok { IfOk result (λ order. order_lines (order_of bytes.now) ≡ Ok order) }
    ensures err { IfErr result (RefusesSo (λ r. order_lines (order_of bytes.now) ≡ Err r)) }
{
    match Order::read(alloc, bytes) {
        Ok(order) => Ok(order),
        Err(stream_text::OrderError::BadLine { line }) => {
            Err(Refusal::Order(OrderError::BadLine { line }))
        }
        Err(stream_text::OrderError::Memory) => Err(Refusal::NoMemory),
    }
}

/// Reads a file of streams. `file` says what the command reads it for.
pub fn read_stream<F: Files>(
    alloc: Global,
    files: &mut F,
    name: &str,
    file: Input,
) -> Result<Vec<u8>, Refusal>
    requires files { CanRead F.Files files.old name.now }
    ensures ok { IfOk result (λ bytes. IsRead (F.entries files.old) (F.readings files.old) (F.readings files.new)
        name.now (stream_kind file) (Ok bytes.items)) }
    ensures few { IfOk result (λ bytes. length bytes.items ≤ 67108864) }
    ensures err { IfErr result (RefusesFile (F.entries files.old) (F.readings files.old) (F.readings files.new)
        name.now (stream_kind file) (F.faults files.old) (F.faults files.new)) }
    ensures files { KeepsFiles F.Files files.old files.new }
{
    match read_file(alloc, files, name, STREAM_LIMIT) {
        Ok(bytes) => Ok(bytes),
        Err(error) => Err(read_refusal(error, file)),
    }
}
