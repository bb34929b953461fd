//! The outside: a folder that is read and a sink that is written, each with a count of its faults.
//!
//! Crates above use a folder and a sink by their traits alone. A call that fails raised the count of
//! faults of the object it was made on, so that a report of a fault always has its cause.
#![tactic(auto)]

mod failed;
mod folder;
mod mem_folder;
mod mem_sink;
mod read;
mod real;
mod sink;
mod write;

pub use failed::Failed;
pub use folder::Folder;
pub use mem_folder::MemFolder;
pub use mem_sink::MemSink;
pub use read::{PIECE, ReadError, make_piece, read_file};
pub use real::{RealFolder, StreamSink};
pub use sink::Sink;
pub use write::write_all;
