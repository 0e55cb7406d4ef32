//! The kinds of step on cells and counters. These types are for the proofs alone.
ghost use Rattle.vsd_table.specs.CellKinds.{load_cell, to_dispatch, to_resolve, to_lookup, count};

use crate::step_kind::StepKind;

pub(crate) struct LoadCell;

impl StepKind for LoadCell {
    ghost kind = { load_cell };
}

pub(crate) struct ToDispatch;

impl StepKind for ToDispatch {
    ghost kind = { to_dispatch };
}

pub(crate) struct ToResolve;

impl StepKind for ToResolve {
    ghost kind = { to_resolve };
}

pub(crate) struct ToLookup;

impl StepKind for ToLookup {
    ghost kind = { to_lookup };
}

pub(crate) struct Count;

impl StepKind for Count {
    ghost kind = { count };
}
