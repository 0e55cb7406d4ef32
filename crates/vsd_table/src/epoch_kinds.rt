//! The kinds of step on the epoch and on the own epoch word. These types are for the proofs alone.
ghost use Rattle.vsd_table.specs.EpochKinds.{load_epoch, pin, unpin};

use crate::step_kind::StepKind;

pub(crate) struct LoadEpoch;

impl StepKind for LoadEpoch {
    ghost kind = { load_epoch };
}

pub(crate) struct Pin;

impl StepKind for Pin {
    ghost kind = { pin };
}

pub(crate) struct Unpin;

impl StepKind for Unpin {
    ghost kind = { unpin };
}
