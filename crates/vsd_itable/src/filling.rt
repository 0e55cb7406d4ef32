//! The targets of all types and tokens.
ghost use Rattle.std.specs.Prelude.{◌≡◌, ◌<◌, ◌^◌, All, IfOk, OnOk, length};
ghost use Rattle.vsd_slots.specs.Refusals.{method_count};
ghost use Rattle.vsd_types.specs.Types.{type_at};
ghost use Rattle.vsd_itable.specs.Filling.{AddsTargets, AreTargetsTo, BelongTogether};
ghost use Rattle.vsd_itable.specs.Numbering.{AreNumbered};
ghost use Rattle.vsd_itable.specs.Tables.{IsTarget, IsToken};

use crate::numbering::{Numbers, number_of};
use crate::selecting::{Parts, selected};
use crate::targets::Targets;
use std::alloc::{AllocError, Global};

// The target of class `t` and the `m`-th method of interface `j`.
fn target_number(parts: &Parts<'_>, numbers: &Numbers, t: u16, j: u16, m: u16) -> u32
    requires together { BelongTogether parts.now.checked.now parts.now.closed.now parts.now.variances.now parts.now.slots.now }
    requires numbered { AreNumbered parts.now.closed.now numbers.now.methods.items numbers.now.starts.items }
    requires class { t < length parts.now.closed.now.types }
    requires interface { j < length parts.now.closed.now.types }
    requires method { m < method_count parts.now.closed.now.decls.list (type_at parts.now.closed.now.types j) }
    ensures { IsTarget parts.now.closed.now numbers.now.methods.items (type_at parts.now.closed.now.types t) (type_at parts.now.closed.now.types j) m result }
{
    match selected(parts, t, j, m) {
        Some(method) => number_of(numbers, parts.closed, method) + 1,
        None => 0,
    }
}

// Adds the targets of class `t` for every token.
fn add_targets(
    parts: &Parts<'_>,
    numbers: &Numbers,
    tokens: &[(u16, u16)],
    t: u16,
    entries: &mut Vec<u32>,
) -> Result<(), AllocError>
    requires together { BelongTogether parts.now.checked.now parts.now.closed.now parts.now.variances.now parts.now.slots.now }
    requires numbered { AreNumbered parts.now.closed.now numbers.now.methods.items numbers.now.starts.items }
    requires tokens { All (IsToken parts.now.closed.now) tokens.now }
    requires class { t < length parts.now.closed.now.types }
    ensures { OnOk result (AddsTargets parts.now.closed.now tokens.now numbers.now.methods.items t (length tokens.now) entries.old.items entries.new.items) }
{
    for k in 0..tokens.len() {
        let (interface, slot) = tokens[k];
        entries.push(target_number(parts, numbers, t, interface, slot))?;
    }
    Ok(())
}

/// The targets of every type and token.
pub(crate) fn fill_targets(
    alloc: Global,
    parts: &Parts<'_>,
    numbers: &Numbers,
    tokens: &[(u16, u16)],
) -> Result<Targets, AllocError>
    requires together { BelongTogether parts.now.checked.now parts.now.closed.now parts.now.variances.now parts.now.slots.now }
    requires numbered { AreNumbered parts.now.closed.now numbers.now.methods.items numbers.now.starts.items }
    requires tokens { All (IsToken parts.now.closed.now) tokens.now }
    ensures { IfOk result (λ targets. AreTargetsTo parts.now.closed.now tokens.now numbers.now.methods.items (length parts.now.closed.now.types) targets.entries.items) }
{
    let mut entries = Vec::new(alloc);
    for t in 0..parts.closed.count() {
        add_targets(parts, numbers, tokens, t, &mut entries)?;
    }
    Ok(Targets { entries })
}
