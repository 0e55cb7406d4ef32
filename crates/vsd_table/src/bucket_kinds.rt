//! The kinds of step on buckets. These types are for the proofs alone.
ghost use Rattle.vsd_table.specs.BucketKinds.{load_bucket, put_bucket, empty_bucket};

use crate::step_kind::StepKind;

pub(crate) struct LoadBucket;

impl StepKind for LoadBucket {
    ghost kind = { load_bucket };
}

pub(crate) struct PutBucket;

impl StepKind for PutBucket {
    ghost kind = { put_bucket };
}

pub(crate) struct EmptyBucket;

impl StepKind for EmptyBucket {
    ghost kind = { empty_bucket };
}
