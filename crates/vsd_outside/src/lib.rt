//! The outside world as the program meets it: sources that give bytes and sinks that take them, each
//! with a count of its faults; their forms in memory; and standard input and output.
#![tactic(auto)]

mod memory_sinks;
mod memory_sources;
mod reading;
mod sinks;
mod sources;
mod standard;
mod writing;

pub use memory_sinks::MemorySink;
pub use memory_sources::{MemorySource, SureSource};
pub use reading::{ReadError, read_up_to};
pub use sinks::Sink;
pub use sources::{Failed, Source};
pub use standard::{StdSink, StdSource};
pub use writing::write_whole;

#[cfg(test)]
mod tests;
