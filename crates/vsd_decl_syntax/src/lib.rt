//! The syntax of declarations (ECMA-335, II.10): classes and interfaces with their parameters, methods and overrides.
//!
//! Each function reads one production of the grammar, of which `specs/` has one definition each.
#![tactic(auto)]

mod arguments;
mod classes;
mod laws;
mod members;
mod methods;
mod overrides;
mod params;
mod rules;
mod signatures;

pub use classes::class;
pub use laws::items_are_decided;
pub use members::passed;
