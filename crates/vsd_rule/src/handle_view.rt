//! What a seat knows of handles.
use std::collections::LinkedList;
use vsd_words::{Handle, HandleWord};

/// What type a handle is bound to.
pub struct Binding {
    pub handle: Handle,
    /// The number of the type.
    pub number: u16,
}

/// What a seat knows of handles.
pub struct HandleView {
    /// The bindings that it has learnt, the latest first. None is ever forgotten.
    pub bindings: LinkedList<Binding>,
    /// The handle words of its own 64 handle rows, in order.
    pub owned: LinkedList<HandleWord>,
}
