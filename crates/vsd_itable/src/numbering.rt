//! Numbers of methods.
ghost use Rattle.std.specs.Prelude.{◌≡◌, ◌+◌, ◌<◌, ◌≤◌, IfOk, OnOk, Some, length, slice_get};
ghost use Rattle.vsd_check.specs.Checked.{decls_of};
ghost use Rattle.vsd_slots.specs.Refusals.{method_count};
ghost use Rattle.vsd_types.specs.Types.{type_at};
ghost use Rattle.vsd_itable.specs.Numbering.{AddsMethods, AreNumbered};
ghost use Rattle.vsd_itable.specs.Tables.{IsListed};

use std::alloc::{AllocError, Global};
use vsd_check::Checked;
use vsd_slots::{ClosedMethod, count_methods};
use vsd_types::Closed;

/// The methods of all classes, numbered by their places.
#[derive(Drop)]
pub(crate) struct Numbers {
    pub(crate) methods: Vec<ClosedMethod>,
    /// For each class the number of its first method.
    pub(crate) starts: Vec<u32>,
}

// Adds the first methods of a class.
fn add_methods(methods: &mut Vec<ClosedMethod>, class: u16, count: u16) -> Result<(), AllocError>
    ensures { OnOk result (AddsMethods class count methods.old.items methods.new.items) }
{
    for method in 0..count {
        methods.push(ClosedMethod { class, method })?;
    }
    Ok(())
}

/// Numbers the methods that closed classes declare, in the order of the classes and of their declarations.
pub(crate) fn number_methods(
    alloc: Global,
    checked: &Checked,
    closed: &Closed,
) -> Result<Numbers, AllocError>
    requires { closed.now.decls ≡ decls_of checked.now }
    ensures { IfOk result (λ numbers. AreNumbered closed.now numbers.methods.items numbers.starts.items) }
{
    let mut methods = Vec::new(alloc);
    let mut starts = Vec::with_capacity(alloc, usize::from(closed.count()))?;
    for t in 0..closed.count() {
        starts.push(methods.len() as u32)?;
        add_methods(&mut methods, t, count_methods(checked, closed, t))?;
    }
    Ok(Numbers { methods, starts })
}

/// The number of a method.
pub(crate) fn number_of(numbers: &Numbers, closed: &Closed, method: ClosedMethod) -> u32
    requires numbered { AreNumbered closed.now numbers.now.methods.items numbers.now.starts.items }
    requires listed { IsListed closed.now method }
    ensures number { slice_get numbers.now.methods.items result ≡ Some method }
    ensures few { result < 262144 }
{
    let _count = closed.count();
    numbers.starts[method.class as usize] + u32::from(method.method)
}
