//! Which declarations lie above which: kinds of bases and interfaces, cycles, and the depth of each declaration.
//!
//! Each condition is a relation in `specs/`, and each function answers the least line at which it shows.
#![tactic(auto)]

mod depths;
mod kinds;
mod upward;

pub use depths::{depths_of, first_cycle};
pub use kinds::{bad_base, bad_interface};
