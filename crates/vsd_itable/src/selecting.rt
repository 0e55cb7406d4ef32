//! The method that a call selects.
ghost use Rattle.std.specs.Prelude.{◌≡◌, ◌<◌, IfSome, Some, length};
ghost use Rattle.vsd_slots.specs.Entries.{found_of};
ghost use Rattle.vsd_slots.specs.Refusals.{method_count};
ghost use Rattle.vsd_types.specs.Types.{type_at};
ghost use Rattle.vsd_itable.specs.Filling.{BelongTogether, IsDeclaredFrom, IsImplementing};
ghost use Rattle.vsd_itable.specs.Selection.{IsBodyOf, IsSelection};
ghost use Rattle.vsd_itable.specs.Tables.{IsListed, found_with};

use crate::bodies::body_at;
use crate::matching::match_place;
use vsd_check::Checked;
use vsd_compat::Variances;
use vsd_slots::{ClosedMethod, Slots};
use vsd_types::Closed;

/// What selection reads.
#[derive(Clone, Copy)]
pub(crate) struct Parts<'a> {
    pub(crate) checked: &'a Checked,
    pub(crate) closed: &'a Closed,
    pub(crate) variances: &'a Variances,
    pub(crate) slots: &'a Slots,
}

// What implements the `m`-th method of interface `j` in class `t`.
fn implementing(parts: &Parts<'_>, t: u16, j: u16, m: u16) -> Option<ClosedMethod>
    requires together { BelongTogether parts.now.checked.now parts.now.closed.now parts.now.variances.now parts.now.slots.now }
    requires class { t < length parts.now.closed.now.types }
    requires interface { j < length parts.now.closed.now.types }
    requires method { m < method_count parts.now.closed.now.decls.list (type_at parts.now.closed.now.types j) }
    ensures { IsImplementing parts.now.closed.now t j m result }
{
    let _decls = parts.checked.decls();
    let _count = parts.closed.count();
    let interfaces = parts.slots.all_interfaces(parts.closed, t);
    let place = match_place(parts.closed, parts.variances, interfaces, j)?;
    parts.slots.implementation(parts.closed, t, place, m)
}

// What the slot of a method holds in class `t`.
fn body_of(parts: &Parts<'_>, t: u16, method: ClosedMethod) -> Option<ClosedMethod>
    requires together { BelongTogether parts.now.checked.now parts.now.closed.now parts.now.variances.now parts.now.slots.now }
    requires class { t < length parts.now.closed.now.types }
    requires upward { IsDeclaredFrom parts.now.closed.now t method }
    ensures body { (b : ClosedMethod) × (result ≡ Some b) × IsListed parts.now.closed.now b
        × IsBodyOf parts.now.closed.now.decls.list (type_at parts.now.closed.now.types t) (found_with parts.now.closed.now.types method) (found_with parts.now.closed.now.types b) }
{
    let decl = parts.closed.declaration(method.class)?;
    let root = parts.checked.root(decl, method.method);
    body_at(parts.checked, parts.closed, t, root)
}

/// The method that a call of the `m`-th method of interface `j` selects on an object of type `t`, if any. Takes no memory.
pub(crate) fn selected(parts: &Parts<'_>, t: u16, j: u16, m: u16) -> Option<ClosedMethod>
    requires together { BelongTogether parts.now.checked.now parts.now.closed.now parts.now.variances.now parts.now.slots.now }
    requires class { t < length parts.now.closed.now.types }
    requires interface { j < length parts.now.closed.now.types }
    requires method { m < method_count parts.now.closed.now.decls.list (type_at parts.now.closed.now.types j) }
    ensures selection { IsSelection parts.now.closed.now.decls.list (type_at parts.now.closed.now.types t) (type_at parts.now.closed.now.types j) m (found_of parts.now.closed.now.types result) }
    ensures listed { IfSome result (IsListed parts.now.closed.now) }
{
    let method = implementing(parts, t, j, m)?;
    body_of(parts, t, method)
}
