//! The outside as traits: bytes that are read, bytes that are sent, and folders of files.
//! Each has objects in memory, which tell all their content, and thin adapters over the system,
//! which tell none.
#![tactic(auto)]

mod fault;
mod folder;
mod mem_folder;
mod mem_sink;
mod plan;
mod real_folder;
mod real_sink;
mod sink;
mod source;

pub use fault::{Failed, ReadErr};
pub use folder::Folder;
pub use mem_folder::MemFolder;
pub use mem_sink::MemSink;
pub use real_folder::RealFolder;
pub use real_sink::{RealErr, RealOut, RealSink};
pub use sink::{Sink, write_all};
pub use source::{Source, read_all};

#[cfg(test)]
mod tests;
