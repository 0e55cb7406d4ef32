//! The order in which closed types are looked at.
ghost use Rattle.std.specs.Prelude.{◌≡◌, ◌<◌, length, IfOk};
ghost use Rattle.vsd_check.specs.Checked.{decls_of, depths_of};
ghost use Rattle.vsd_types.specs.Types.{type_at};
ghost use Rattle.vsd_interfaces.specs.Ranks.{AreRanks, builtin_rank, rank_of};

use std::alloc::{AllocError, Global};
use vsd_check::Checked;
use vsd_terms::{Builtin, Term};
use vsd_types::Closed;

fn builtin_rank(builtin: Builtin) -> u16
    ensures { result ≡ builtin_rank builtin }
{
    match builtin {
        Builtin::Object => 0,
        Builtin::String | Builtin::ValueType => 1,
        _ => 2,
    }
}

// The rank of a type: greater than those of its base and of what it names.
fn rank(checked: &Checked, closed: &Closed, t: u16) -> u16
    requires together { closed.now.decls ≡ decls_of checked.now }
    requires within { t < length closed.now.types }
    ensures { result ≡ rank_of closed.now.decls.list (depths_of checked.now) (type_at closed.now.types t) }
{
    if let Some(place) = closed.declaration(t) {
        // No declaration is deeper than there are declarations, at most 1,024.
        return checked.depth(place) + 2;
    }
    match closed.term(t) {
        Term::Builtin(builtin) => builtin_rank(*builtin),
        _ => 0,
    }
}

/// The rank of each type.
pub(crate) fn ranks(
    alloc: Global,
    checked: &Checked,
    closed: &Closed,
) -> Result<Vec<u16>, AllocError>
    requires together { closed.now.decls ≡ decls_of checked.now }
    ensures { IfOk result (λ found. AreRanks closed.now.decls.list (depths_of checked.now) closed.now.types found.items) }
{
    let mut found = Vec::new(alloc);
    for t in 0..closed.count() {
        found.push(rank(checked, closed, t))?;
    }
    Ok(found)
}
