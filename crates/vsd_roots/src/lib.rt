//! What virtual methods override, the roots of their slots, and three conditions on lawful declarations.
//!
//! [`overridden`] and [`roots`] give tables with a row for each declaration and an entry for each of its virtual methods
//! (ECMA-335, II.9.9, II.10.3.1). A method without `newslot` overrides its match in the nearest class above that has one,
//! and its root is the root of what it overrides; any other method is its own root. Methods of one name are linked, in
//! the order of the depths of their classes, so that a match is looked for among those of less deep classes alone.
//!
//! [`overrides_final`], [`abstract_in_concrete`] and [`misplaced_variance`] each answer the least line at which one
//! declaration breaks a condition.
#![tactic(auto)]

mod abstracts;
mod earlier;
mod finals;
mod laws;
mod links;
mod overriding;
mod place;
mod rooting;
mod rows;
mod variance;

pub use abstracts::{abstract_bodies, abstract_in_concrete};
pub use finals::overrides_final;
pub use laws::{positions_law, slots_law};
pub use overriding::overridden;
pub use place::Place;
pub use rooting::roots;
pub use rows::entry_of;
pub use variance::{Position, misplaced_variance};
