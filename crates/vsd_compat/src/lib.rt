//! Compatibility of closed types, with variance.
#![tactic(auto)]

mod agenda;
mod climbing;
mod generics;
mod laws;
mod matrix;
mod relation;
mod variances;
mod waking;

pub use generics::are_same_generic;
pub use laws::{compatibility_is_transitive, compatibility_law};
pub use variances::Variances;
