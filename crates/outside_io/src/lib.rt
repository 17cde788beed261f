//! What a program may ask of the world around it: to read a named file, and to write a text.
//!
//! A [`Files`] lends a [`Source`] for a name; the source is read to its end, and `done` gives it back. A [`Sink`] takes
//! bytes. Each of the three counts its faults, and reports a failure only in a call in which that count rose: no caller
//! can claim a fault that the outside did not have.
//!
//! Each logs what passed through it: a source logs the bytes that it gave and whether it reached its end or failed,
//! files log their readings one after another, and a sink logs the bytes that it took and the writes that were
//! requested. Contracts see the log of every object, and what a file holds if the object knows it. [`HostFiles`] and
//! [`HostSink`] stand over the machine's files and streams: they log what its reads gave and its writes took, and do
//! not know what the files hold. The form of the traits is this project's own choice.
//!
//! The logs exist in proofs alone: a [`ReadingTrace`] for one file, a [`FilesTrace`] for one file after another, a
//! [`SinkTrace`] for a sink. A trace takes no room, its calls do nothing when they run, and it says only what the calls
//! on it record.
//!
//! For example, the machine has the file `greeting` of the five bytes `hello`, and its second read fails:
//!
//! | call | answer | given | faults of the source |
//! |---|---|---|---|
//! | `files.source("greeting")` | a source | | 0 |
//! | `source.read(&mut [0; 3])` | 3, `hel` | `hel` | 0 |
//! | `source.read(&mut [0; 3])` | `Failed` | `hel` | 1 |
//!
//! `files.done(source)` then adds that fault to the count of the files, and a reading to their log that gave
//! `hel` and failed.
#![tactic(auto)]

mod host_files;
mod host_sink;
mod outside;
mod reading;
mod readings;
mod tracing;
mod writing;

pub use host_files::{HostFiles, HostSource};
pub use host_sink::HostSink;
pub use outside::{Failed, Files, Sink, Source, SourceRefused};
pub use reading::ReadingTrace;
pub use readings::FilesTrace;
pub use writing::SinkTrace;
