//! Type names and terms: what a declaration or a script writes where a type is meant.
#![tactic(auto)]

mod equality;
mod equality_under;
mod names;
mod places;
mod size;
mod substitution;
mod term;
mod text;

pub use equality::same;
pub use equality_under::{is_instance, same_under};
pub use names::{Names, NamesError};
pub use places::place_of;
pub use size::{levels, nodes};
pub use substitution::{copy, parameters, subst};
pub use term::{Builtin, Term, Terms};
pub use text::{names_needed, print};

#[cfg(test)]
mod tests;
