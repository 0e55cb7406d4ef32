//! Overrides: which method of which interface each implements, and two conditions on lawful declarations.
//!
//! An override names an interface's method and the method of its class that implements it (ECMA-335, II.10.3.2). It
//! implements something where its owner is an interface that the class has, the interface has the method, the class
//! declares the implementing one, and their signatures agree at the owner's arguments. [`targets`] gives what each
//! implements; [`unknown_override`] and [`repeated_override`] each answer the least line at which one declaration breaks
//! a condition. Whether an open class has an interface is asked without listing its interfaces, of all classes at once.
#![tactic(auto)]

mod asked;
mod conditions;
mod matched;
mod meaning;
mod numbered;
mod owners;
mod signatures;
mod table;
mod target;

pub use conditions::{repeated_override, unknown_override};
pub use table::targets;
pub use target::Target;
