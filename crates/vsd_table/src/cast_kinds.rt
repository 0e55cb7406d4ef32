//! The kinds of step on the region and on cast rows. These types are for the proofs alone.
ghost use Rattle.vsd_table.specs.CastKinds.{load_region, grow, load_version, load_source, load_cast, load_version_again, claim_cast, reclaim_cast, publish, set_source, set_cast};

use crate::step_kind::StepKind;

pub(crate) struct LoadRegion;

impl StepKind for LoadRegion {
    ghost kind = { load_region };
}

pub(crate) struct Grow;

impl StepKind for Grow {
    ghost kind = { grow };
}

pub(crate) struct LoadVersion;

impl StepKind for LoadVersion {
    ghost kind = { load_version };
}

pub(crate) struct LoadSource;

impl StepKind for LoadSource {
    ghost kind = { load_source };
}

pub(crate) struct LoadCast;

impl StepKind for LoadCast {
    ghost kind = { load_cast };
}

pub(crate) struct LoadVersionAgain;

impl StepKind for LoadVersionAgain {
    ghost kind = { load_version_again };
}

pub(crate) struct ClaimCast;

impl StepKind for ClaimCast {
    ghost kind = { claim_cast };
}

pub(crate) struct ReclaimCast;

impl StepKind for ReclaimCast {
    ghost kind = { reclaim_cast };
}

pub(crate) struct Publish;

impl StepKind for Publish {
    ghost kind = { publish };
}

pub(crate) struct SetSource;

impl StepKind for SetSource {
    ghost kind = { set_source };
}

pub(crate) struct SetCast;

impl StepKind for SetCast {
    ghost kind = { set_cast };
}
