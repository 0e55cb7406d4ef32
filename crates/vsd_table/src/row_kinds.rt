//! The kinds of step on a row's four words. These types are for the proofs alone.
ghost use Rattle.vsd_table.specs.RowKinds.{claim, load_row_word, set_handle, set_token, set_target, free};

use crate::step_kind::StepKind;

pub(crate) struct Claim;

impl StepKind for Claim {
    ghost kind = { claim };
}

pub(crate) struct SetHandle;

impl StepKind for SetHandle {
    ghost kind = { set_handle };
}

pub(crate) struct SetToken;

impl StepKind for SetToken {
    ghost kind = { set_token };
}

pub(crate) struct SetTarget;

impl StepKind for SetTarget {
    ghost kind = { set_target };
}

pub(crate) struct Free;

impl StepKind for Free {
    ghost kind = { free };
}

pub(crate) struct LoadRowWord;

impl StepKind for LoadRowWord {
    ghost kind = { load_row_word };
}
