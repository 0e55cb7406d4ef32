//! Which interfaces a class has, without listing them.
//!
//! A class has the interfaces that it and the classes above it name, and those that these require, at their arguments
//! (ECMA-335, II.12.1). An open class can have two to the number of declarations of them, so they are never listed.
//! Instead some interfaces, the owners, are asked for, all at once. From the declarations that require nothing upward, each
//! interface gets its ways: what its arguments have to be for it to lead to owners, and to which of them. What is known of
//! an argument is a part of an owner, or nothing. A class then has an owner where what it names meets a way that is marked
//! for it, which is compared along its chain without making the inherited terms.
#![tactic(auto)]

mod binding;
mod having;
mod known;
mod laws;
mod marks;
mod order;
mod requiring;

pub use having::has_interfaces;
pub use known::{Known, Ways};
pub use laws::interfaces_are_listed;
pub use marks::{Marks, OWNERS_AT_ONCE};
pub use order::upward_order;
pub use requiring::all_ways;
