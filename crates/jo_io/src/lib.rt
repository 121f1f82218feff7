//! What a program knows of the outside: named files that are read whole, and sinks that take bytes.
#![tactic(auto)]

mod files;
mod memory_files;
mod memory_sink;
mod numbers;
mod sink;
mod std_files;
mod std_sink;
mod sure_sink;

pub use files::{FileFault, Files};
pub use memory_files::MemoryFiles;
pub use memory_sink::MemorySink;
pub use sink::{Failed, Sink};
pub use std::alloc::AllocError as Memory;
pub use std_files::StdFiles;
pub use std_sink::StdSink;
pub use sure_sink::SureSink;

#[cfg(test)]
mod tests;
