//! The kinds of step by which rows are retired and swept. These types are for the proofs alone.
ghost use Rattle.vsd_table.specs.LimboKinds.{epoch_to_retire, raise, epoch_of, free_swept};

use crate::step_kind::StepKind;

pub(crate) struct EpochToRetire;

impl StepKind for EpochToRetire {
    ghost kind = { epoch_to_retire };
}

pub(crate) struct Raise;

impl StepKind for Raise {
    ghost kind = { raise };
}

pub(crate) struct EpochOf;

impl StepKind for EpochOf {
    ghost kind = { epoch_of };
}

pub(crate) struct FreeSwept;

impl StepKind for FreeSwept {
    ghost kind = { free_swept };
}
