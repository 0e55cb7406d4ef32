//! The syntax of types (ECMA-335, II.7.1, II.9), for the readers of declarations and of scripts.
//!
//! What a name stands for, how many arguments a type takes and what `!` names differ between the two: each reader gives
//! its rules.
#![tactic(auto)]

mod laws;
mod lists;
mod named;
mod rules;
mod starts;
mod types;

pub use laws::{first_test_accepts, types_are_decided, types_keep_limits};
pub use lists::first_cause;
pub use rules::TypeRules;
pub use starts::{Special, Start};
pub use types::{written, written_open, written_rest};
