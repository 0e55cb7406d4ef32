//! The kinds of step on handle words. These types are for the proofs alone.
ghost use Rattle.vsd_table.specs.HandleKinds.{load_handle, bind, unbind};

use crate::step_kind::StepKind;

pub(crate) struct LoadHandle;

impl StepKind for LoadHandle {
    ghost kind = { load_handle };
}

pub(crate) struct Bind;

impl StepKind for Bind {
    ghost kind = { bind };
}

pub(crate) struct Unbind;

impl StepKind for Unbind {
    ghost kind = { unbind };
}
