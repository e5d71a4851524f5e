//! The outside: files that are read and written by name, and sinks that take the lines of a run. A caller is generic
//! over the two traits, and learns from their clauses what it may say of any files and sinks.
#![tactic(auto)]

mod calls;
mod disk_files;
mod files;
mod mem_files;
mod mem_sink;
mod sink;
mod std_sink;

pub use disk_files::DiskFiles;
pub use files::{FileNo, Files};
pub use mem_files::{MemFiles, SureFiles};
pub use mem_sink::{MemSink, SureSink};
pub use sink::{Failed, PutNo, Sink, put_all};
pub use std_sink::StdSink;
