//! The generic interface that each type is of, in one list: most pairs of types are passed over by it alone.
ghost use Rattle.std.specs.Prelude.{◌≡◌, ◌<◌, ◌↔◌, IfOk, IsTrue, length};
ghost use Rattle.vsd_types.specs.Types.{type_at};
ghost use Rattle.vsd_compat.specs.Compatibility.{AreSameInterface};
ghost use Rattle.vsd_compat.specs.Generics.{AreGenerics, IsOneInterface, generic_of};

use std::alloc::{AllocError, Global};
use vsd_types::Closed;

/// The place of each interface's declaration, none for another type.
pub(crate) fn generics_of(alloc: Global, closed: &Closed) -> Result<Vec<Option<u16>>, AllocError>
    ensures { IfOk result (λ made. AreGenerics closed.now made.items) }
{
    let mut made = Vec::new(alloc);
    for t in 0..closed.count() {
        made.push(generic(closed, t))?;
    }
    Ok(made)
}

fn generic(closed: &Closed, t: u16) -> Option<u16>
    requires { t < length closed.now.types }
    ensures { result ≡ generic_of closed.now.decls.list (type_at closed.now.types t) }
{
    if closed.is_interface(t) {
        closed.declaration(t)
    } else {
        None
    }
}

/// Whether the places of two types' interfaces are of one interface.
pub(crate) fn is_one_interface(of_t: Option<u16>, of_u: Option<u16>) -> bool
    ensures { IsTrue result ↔ IsOneInterface of_t of_u }
{
    of_t.is_some() && of_t == of_u
}

/// Whether two types are of one generic interface, at maybe other arguments. Takes no memory.
pub fn are_same_generic(closed: &Closed, t: u16, u: u16) -> bool
    requires first { t < length closed.now.types }
    requires second { u < length closed.now.types }
    ensures { IsTrue result ↔ AreSameInterface closed.now.decls.list (type_at closed.now.types t) (type_at closed.now.types u) }
{
    is_one_interface(generic(closed, t), generic(closed, u))
}
