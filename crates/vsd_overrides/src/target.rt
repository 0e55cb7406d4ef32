//! What overrides mean.

/// A method of an interface, and the method of a class that implements it.
#[derive(Clone, Copy, Debug, PartialEq, Eq, Drop)]
pub struct Target {
    /// The number of the interface's declaration.
    pub interface: u16,
    /// The place of the method among those of the interface.
    pub slot: u16,
    /// The place of the implementing method among the virtual methods of the class.
    pub body: u16,
}
