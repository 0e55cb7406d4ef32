//! What declarations have to meet before one can ask which lies above which: names that stand once, types that are there
//! with as many arguments as they take, and no signs on the parameters of classes.
//!
//! Each condition is a relation in `specs/`, and each function answers the least line at which one declaration shows it.
#![tactic(auto)]

mod duplicates;
mod faults;
mod methods;
mod named;
mod scope;
mod variant;

pub use duplicates::twice;
pub use named::{Lines, types};
pub use scope::{Scope, index};
pub use variant::variant_class;
