//! The trees that readers give: declarations of classes and interfaces, and scripts over them.
//!
//! Lists are the kit's `Items`, which contracts see as lists, so a contract can compare a whole tree with what a
//! definition gives. The definitions in `specs/` that several crates cite speak of these trees alone.
#![tactic(auto)]

mod declarations;
mod scripts;

pub use declarations::{
    Access, Bytes, Decl, Decls, Implementer, Located, Method, Override, Param, Sign, Signature,
};
pub use scripts::{Host, Lane, Op, Script, Site, Var};
