//! The interfaces of every closed type, by numbers.
//!
//! A type reaches the interfaces that it names, and those that these require. A class has those that it reaches itself and then
//! those of its base, each once, nearest class first (ECMA-335, II.12.2).
#![tactic(auto)]

mod collected;
mod laws;
mod ranks;
mod tables;

pub use collected::Collected;
pub use laws::interfaces_law;
pub use tables::{Table, own, tabulate};
