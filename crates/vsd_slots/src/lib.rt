//! What implements the methods of the interfaces of closed classes, and which classes leave one without implementation.
//!
//! The rules are those of ECMA-335, II.12.2, in this project's profile: an override of the class itself, then a public
//! virtual method of the class by name and signature, then what its base has, then such a method of a class above.
#![tactic(auto)]

mod changing;
mod columns;
mod counting;
mod entries;
mod error;
mod filling;
mod kept;
mod laws;
mod made;
mod making;
mod marking;
mod missing;
mod named;
mod ragged;
mod rows;
mod sharing;
mod slots;
mod texts;

pub use counting::count_methods;
pub use entries::ClosedMethod;
pub use error::SlotError;
pub use laws::implementation_law;
pub use slots::{Slots, implement};
pub use texts::{method_text, name_text, type_text};
