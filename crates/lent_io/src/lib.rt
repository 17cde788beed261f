//! What a program asks of the world around it, lent by another program that runs it: files whose bytes lie in memory
//! already and are not copied, and a sink that keeps the text that it takes.
//!
//! For example, with the file `greeting` of the five bytes `hello`:
//!
//! | call | answer | bytes left | faults |
//! |---|---|---|---|
//! | `files.source("greeting")` | a source | `hello` | 0 |
//! | `source.read(&mut [0; 3])` | 3, `hel` | `lo` | 0 |
//! | `source.read(&mut [0; 3])` | 2, `lo` | none | 0 |
//! | `files.done(source)`, `files.source("parting")` | `Failed`: no file has the name | | 1 |
//! | `sink.write(b"hello")` | 5, and `sink.text()` is `hello` | | 0 |
#![tactic(auto)]

mod file;
mod files;
mod sink;

pub use file::LentFile;
pub use files::{LentFiles, LentSource};
pub use sink::TextSink;
