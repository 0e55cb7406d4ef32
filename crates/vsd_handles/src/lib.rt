//! Handles: what callers name loaded types by.
//!
//! A handle is a handle row with a generation. Each caller owns 64 such rows, and it alone stores
//! their words; hosts have rows of their own, whose types are loaded from the start. Binding a row
//! raises its generation by one, so a handle is bound to one type once and for all, and a handle of an
//! unloaded type is told from the row's next one by its generation (as in a generational arena). In the
//! terms of virtual stub dispatch (Book of the Runtime) a handle is the expected type that a stub
//! compares.
//!
//! A caller knows its own words from its last stores, so [`bind`] makes one store, [`unbind`] one, and
//! [`owns`] no step. [`type_of`] makes one load, and whoever it answers learns the type that the owner
//! bound. No call takes memory. `docs/running.md` tells what the rule says of handles.
#![tactic(auto)]

mod binding;
mod owned;
mod types;

pub use binding::{HandlesFull, bind, unbind};
pub use owned::{Owned, owns};
pub use types::type_of;
pub use vsd_trails::Unloaded;

#[cfg(test)]
mod tests;
