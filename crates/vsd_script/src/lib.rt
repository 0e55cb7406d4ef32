//! Scripts: call sites, hosts, and lanes of operations, with repeats written out.
//!
//! A script is read by productions that give the script after each statement, so that what is known where is part of
//! what the productions allow. What the operations of a lane mean stands in the crate of lanes.
#![tactic(auto)]

mod error;
mod laws;
mod methods;
mod script;
mod statements;
mod term;
#[cfg(test)]
mod tests;
mod texts;

pub use error::ScriptError;
pub use laws::{scripts_are_decided, slots_are_counted};
pub use script::{Word, read_script};
pub use term::{ReadTerm, read_term};
pub use texts::listed_text;
