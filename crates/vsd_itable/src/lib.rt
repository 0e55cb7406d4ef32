//! Which method each call selects, which type is compatible with which, and the texts of methods and slots: the tables that
//! the running side is opened over.
//!
//! A call on an object of a type goes through a dispatch token, the number of an interface's type and one of its methods
//! (ECMA-335, II.12.2). The interface that answers is the token's own where the type or a class above it has it, else the
//! first compatible one of the same generic interface, nearest class first (I.8.7). The method is the body, in the
//! object's type, of what implements the slot there.
#![tactic(auto)]

mod bodies;
mod error;
mod filling;
mod laws;
mod matching;
mod numbering;
mod refusing;
mod selecting;
mod tables;
mod target;
mod targets;
mod world;

pub use error::BuildError;
pub use laws::{interfaces_upward_law, selection_law};
pub use tables::Tables;
pub use target::Target;
pub use world::{World, world_is_shared};
