//! Reading a file to its end or its limit.
ghost use Rattle.std.specs.Prelude.{◌≡◌, ◌+◌, ◌<◌, ◌≤◌, ◌^◌, [], IfOk, IfErr, OnOk, IsErrOf, length, vec_len};
ghost use Rattle.outside_io.specs.Trace.{at_end, failed, going};
ghost use Rattle.outside_io.specs.Outside.{Rose};
ghost use Rattle.command_files.specs.Keeping.{CanRead, KeepsFiles};
ghost use Rattle.command_files.specs.Logged.{IsWhole};
ghost use Rattle.command_files.specs.Reading.{GivesMore, GivesWith};
ghost use Rattle.command_files.specs.declared.files.ReadError.TheVariants.{Failed as ReadFailed, Memory, TooLong};
ghost use Rattle.command_files.specs.ReadErrors.{StopsReading, WithFile, read_error_of};

use crate::taker::Taker;
use outside_io::{Failed, Files, Source, SourceRefused};
use std::alloc::{AllocError, Global};

/// The most bytes that one read requests.
const PIECE: usize = 65536;

/// Why a file was not read to its end.
#[derive(Clone, Copy, Debug, PartialEq, Eq)]
pub enum ReadError {
    Failed,
    Memory,
    TooLong,
}

impl From<Failed> for ReadError {
    ghost from_gives = { λ _ e. e ≡ ReadFailed };

    fn from(_error: Failed) -> ReadError {
        ReadError::Failed
    }
}

impl From<AllocError> for ReadError {
    ghost from_gives = { λ _ e. e ≡ Memory };

    fn from(_error: AllocError) -> ReadError {
        ReadError::Memory
    }
}

impl From<SourceRefused> for ReadError {
    ghost from_gives = { λ refused e. e ≡ read_error_of refused };

    fn from(error: SourceRefused) -> ReadError {
        match error {
            SourceRefused::Failed => ReadError::Failed,
            SourceRefused::Memory => ReadError::Memory,
        }
    }
}

/// A buffer of this many bytes, all 0.
fn zeros(alloc: Global, len: usize) -> Result<Vec<u8>, AllocError>
    ensures { IfOk result (λ v. vec_len v ≡ len) }
{
    vec![in alloc; 0; len]
}

/// Reads a piece into the buffer, appends it to the bytes, and returns its length.
fn read_piece<S: Source>(
    source: &mut S,
    buffer: &mut [u8],
    bytes: &mut Vec<u8>,
) -> Result<usize, ReadError>
    requires some { 0 < length buffer.old }
    requires going { (S.reading source.old).stage ≡ going }
    ensures going { IfOk result (λ count. 0 < count → (S.reading source.new).stage ≡ going) }
    ensures ended { IfOk result (λ count. count ≡ 0 → (S.reading source.new).stage ≡ at_end) }
    ensures same { (S.reading source.old).given ≡ bytes.old.items
        → OnOk result ((S.reading source.new).given ≡ bytes.new.items) }
    ensures longer { IfOk result (λ count. length bytes.new.items ≡ length bytes.old.items + count) }
    ensures bound { IfOk result (λ count. count ≤ length buffer.old) }
    ensures gives { GivesMore (S.left source.old) (S.left source.new) (S.reading source.old) (S.reading source.new) }
    ensures few { length (S.reading source.new).given ≤ length (S.reading source.old).given + length buffer.old }
    ensures failed { IsErrOf result ReadError.Failed → Rose (S.faults source.old) (S.faults source.new) }
    ensures broken { IsErrOf result ReadError.Failed → (S.reading source.new).stage ≡ failed }
    ensures no_limit { ¬ (IsErrOf result ReadError.TooLong) }
    ensures later { S.faults source.old ≤ S.faults source.new }
    ensures loan { S.loan source.new ≡ S.loan source.old }
{
    let count = source.read(buffer)?;
    bytes.extend_from_slice(&buffer[..count])?;
    Ok(count)
}

/// Reads all bytes of an unread source, at most `limit`.
fn read_all<S: Source>(alloc: Global, source: &mut S, limit: usize) -> Result<Vec<u8>, ReadError>
    requires limit { limit < 2 ^ 32 }
    requires going { (S.reading source.old).stage ≡ going }
    requires unread { (S.reading source.old).given ≡ [] }
    ensures ok { IfOk result (λ v. (S.reading source.new).given ≡ v.items) }
    ensures within { IfOk result (λ v. length v.items ≤ limit) }
    ensures ended { OnOk result ((S.reading source.new).stage ≡ at_end) }
    ensures too_long { IsErrOf result ReadError.TooLong → length (S.reading source.new).given ≡ limit + 1 }
    ensures not_yet { IsErrOf result ReadError.TooLong → (S.reading source.new).stage ≡ going }
    ensures gives { GivesMore (S.left source.old) (S.left source.new) (S.reading source.old) (S.reading source.new) }
    ensures few { length (S.reading source.new).given ≤ limit + 1 }
    ensures failed { IsErrOf result ReadError.Failed → Rose (S.faults source.old) (S.faults source.new) }
    ensures broken { IsErrOf result ReadError.Failed → (S.reading source.new).stage ≡ failed }
    ensures later { S.faults source.old ≤ S.faults source.new }
    ensures loan { S.loan source.new ≡ S.loan source.old }
{
    let mut bytes = Vec::new(alloc);
    let mut buffer = zeros(alloc, PIECE)?;
    'pieces: while bytes.len() <= limit {
        let room = PIECE.min(limit + 1 - bytes.len());
        if read_piece(source, &mut buffer[..room], &mut bytes)? == 0 {
            return Ok(bytes);
        }
    }
    Err(ReadError::TooLong)
}

/// Reads a piece into the buffer, hands it on, and returns its length.
fn feed_piece<S: Source, T: Taker>(
    source: &mut S,
    buffer: &mut [u8],
    beside: &T::Beside,
    taker: &mut T,
) -> Result<usize, ReadError>
    requires some { 0 < length buffer.old }
    requires going { (S.reading source.old).stage ≡ going }
    requires fits { T.fits beside.now }
    ensures going { IfOk result (λ count. 0 < count → (S.reading source.new).stage ≡ going) }
    ensures ended { IfOk result (λ count. count ≡ 0 → (S.reading source.new).stage ≡ at_end) }
    ensures fed { IfOk result
        (λ count. GivesWith (S.reading source.old) (S.reading source.new) count
        (T.takes beside.now taker.old taker.new)) }
    ensures bound { IfOk result (λ count. count ≤ length buffer.old) }
    ensures gives { GivesMore (S.left source.old) (S.left source.new) (S.reading source.old) (S.reading source.new) }
    ensures few { length (S.reading source.new).given ≤ length (S.reading source.old).given + length buffer.old }
    ensures failed { IsErrOf result ReadError.Failed → Rose (S.faults source.old) (S.faults source.new) }
    ensures broken { IsErrOf result ReadError.Failed → (S.reading source.new).stage ≡ failed }
    ensures no_limit { ¬ (IsErrOf result ReadError.TooLong) }
    ensures later { S.faults source.old ≤ S.faults source.new }
    ensures loan { S.loan source.new ≡ S.loan source.old }
{
    let count = source.read(buffer)?;
    taker.take(beside, &buffer[..count])?;
    Ok(count)
}

/// Hands on all bytes of an unread source, at most `limit`.
fn feed_all<S: Source, T: Taker>(
    alloc: Global,
    source: &mut S,
    limit: usize,
    beside: &T::Beside,
    taker: &mut T,
) -> Result<(), ReadError>
    requires limit { limit < 2 ^ 32 }
    requires going { (S.reading source.old).stage ≡ going }
    requires unread { (S.reading source.old).given ≡ [] }
    requires fits { T.fits beside.now }
    ensures ok { OnOk result (T.takes beside.now taker.old taker.new (S.reading source.new).given) }
    ensures within { OnOk result (length (S.reading source.new).given ≤ limit) }
    ensures ended { OnOk result ((S.reading source.new).stage ≡ at_end) }
    ensures too_long { IsErrOf result ReadError.TooLong → length (S.reading source.new).given ≡ limit + 1 }
    ensures not_yet { IsErrOf result ReadError.TooLong → (S.reading source.new).stage ≡ going }
    ensures gives { GivesMore (S.left source.old) (S.left source.new) (S.reading source.old) (S.reading source.new) }
    ensures few { length (S.reading source.new).given ≤ limit + 1 }
    ensures failed { IsErrOf result ReadError.Failed → Rose (S.faults source.old) (S.faults source.new) }
    ensures broken { IsErrOf result ReadError.Failed → (S.reading source.new).stage ≡ failed }
    ensures later { S.faults source.old ≤ S.faults source.new }
    ensures loan { S.loan source.new ≡ S.loan source.old }
{
    let mut buffer = zeros(alloc, PIECE)?;
    let mut total = 0;
    'pieces: while total <= limit {
        let room = PIECE.min(limit + 1 - total);
        let count = feed_piece(source, &mut buffer[..room], beside, taker)?;
        if count == 0 {
            return Ok(());
        }
        total += count;
    }
    Err(ReadError::TooLong)
}

/// Hands on the bytes of a file, piece by piece, at most `limit`. At most one byte more is read.
pub fn feed_file<F: Files, T: Taker>(
    alloc: Global,
    files: &mut F,
    name: &str,
    limit: usize,
    beside: &T::Beside,
    taker: &mut T,
) -> Result<(), ReadError>
    requires limit { limit < 2 ^ 32 }
    requires files { CanRead F.Files files.old name.now }
    requires fits { T.fits beside.now }
    ensures ok { OnOk result (WithFile (F.entries files.old) (F.readings files.old) (F.readings files.new)
        name.now limit (T.takes beside.now taker.old taker.new)) }
    ensures err { IfErr result (StopsReading (F.entries files.old) (F.readings files.old) (F.readings files.new)
        name.now limit (F.faults files.old) (F.faults files.new)) }
    ensures files { KeepsFiles F.Files files.old files.new }
{
    let mut source = files.source(name)?;
    let fed = feed_all(alloc, &mut source, limit, beside, taker);
    files.done(source);
    fed
}

/// Reads the bytes of a file, at most `limit`. At most one byte more is read.
pub fn read_file<F: Files>(
    alloc: Global,
    files: &mut F,
    name: &str,
    limit: usize,
) -> Result<Vec<u8>, ReadError>
    requires limit { limit < 2 ^ 32 }
    requires files { CanRead F.Files files.old name.now }
    ensures ok { IfOk result (λ v. IsWhole (F.entries files.old) (F.readings files.old) (F.readings files.new) name.now
        limit v.items) }
    ensures err { IfErr result (StopsReading (F.entries files.old) (F.readings files.old) (F.readings files.new)
        name.now limit (F.faults files.old) (F.faults files.new)) }
    ensures files { KeepsFiles F.Files files.old files.new }
{
    let mut source = files.source(name)?;
    let bytes = read_all(alloc, &mut source, limit);
    files.done(source);
    bytes
}
