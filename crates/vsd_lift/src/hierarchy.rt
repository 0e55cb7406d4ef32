//! Declarations with tables over them.

use vsd_ast::Decl;

/// Declarations that lie above and below one another without a cycle.
#[derive(Clone, Copy)]
pub struct Hierarchy<'a> {
    pub decls: &'a [Decl],
    /// The number of the declaration of each name, by the name's number; the number of declarations where none has it.
    pub places: &'a [u16],
    /// One more than the greatest depth of the declarations that a declaration names as its base and interfaces.
    pub depths: &'a [u16],
}
