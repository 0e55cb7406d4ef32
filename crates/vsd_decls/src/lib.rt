//! Declarations in the syntax of ilasm (ECMA-335, II.9, II.10): what a text declares, or the first of what refuses it.
#![tactic(auto)]

mod declarations;
mod errors;
mod laws;
mod reading;
mod texts;

pub use errors::DeclError;
pub use laws::{declarations_are_decided, declarations_are_well_formed};
pub use reading::read_decls;
pub use texts::{counted_text, form_text};
pub use vsd_grammar::{Counted, Form};

#[cfg(test)]
mod tests;
