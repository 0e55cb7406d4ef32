//! The lines of a script's answers, written to a sink in pages.
#![tactic(auto)]

mod errors;
mod laws;
mod lines;
mod pages;
mod writing;

pub use errors::LinesError;
pub use laws::{Telling, one_text_law, said_law, text_law};
pub use writing::write_lines;

#[cfg(test)]
mod tests;
