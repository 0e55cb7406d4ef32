//! Which method of a closed class is meant for a method of an interface: by the class's overrides, and by name and signature.
//!
//! An override names its interface's method and gives one of the class's own. Without one, the first public virtual method
//! that the class declares with the name and the signature of the interface's, each at its own arguments, is offered (ECMA-335,
//! II.10.3.2, II.12.2).
#![tactic(auto)]

mod declared;
mod names;
mod offering;
mod overriding;
mod signatures;

pub use declared::{Declared, declaration_at};
pub use names::method_names;
pub use offering::naming;
pub use overriding::{Given, first_given, overrides_of};
