//! Files that are read and sinks that are written to, as the program sees them, with versions in memory.
#![tactic(auto)]

pub mod files;
pub mod mem_files;
pub mod mem_sink;
mod plan;
pub mod read;
pub mod sink;
pub mod write;

pub use files::{Failed, Files};
pub use mem_files::MemFiles;
pub use mem_sink::MemSink;
pub use read::{ReadError, read_all};
pub use sink::Sink;
pub use write::{write_all, write_parts};
