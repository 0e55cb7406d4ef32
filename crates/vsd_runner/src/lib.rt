//! The top call: from the words of the command line and a source of bytes to a status and the bytes that
//! a sink takes.
#![tactic(auto)]

mod answers;
mod command;
mod endings;
mod in_memory;
mod running;
mod statuses;

pub use endings::Ended;
pub use in_memory::run_in_memory;
pub use running::run;
pub use statuses::{Status, number};
pub use vsd_outside::{
    Failed, MemorySink, MemorySource, Sink, Source, StdSink, StdSource, SureSource,
};
pub use vsd_refusals::Refusal;
pub use vsd_stages::{LinesError as RenderError, render};

#[cfg(test)]
mod tests;
