//! The outside as traits, and what commands do with it.
//! Bytes come and go in order, none lost and none twice. Nothing is promised of what the system's
//! streams and files hold.
//! Always: a call fails only where a count of faults increased. What is read of a known file is a
//! front of what the file holds.
#![tactic(auto)]

mod buffered_sink;
mod buffered_source;
mod created;
mod dir_files;
mod failed;
mod failing;
mod file_map;
mod files;
pub mod laws;
pub mod load;
mod mem_files;
mod mem_sink;
mod mem_source;
mod sink;
mod source;
mod std_streams;
mod uninterrupted;

pub use buffered_sink::{BufferedSink, Buffering};
pub use buffered_source::BufferedSource;
pub use created::{Created, save};
pub use dir_files::DirFiles;
pub use failed::Failed;
pub use files::Files;
pub use mem_files::MemFiles;
pub use mem_sink::MemSink;
pub use mem_source::{MemSource, NoFailSource};
pub use sink::{CHUNK, Sink, write_all};
pub use source::Source;
pub use std_streams::{StdSink, StdSource};
