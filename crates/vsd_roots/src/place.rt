//! Places of virtual methods.

/// A virtual method: the number of its declaration, and its place among that declaration's methods.
#[derive(Clone, Copy, Debug, PartialEq, Eq, Hash, Drop)]
pub struct Place {
    pub decl: u16,
    pub method: u16,
}
