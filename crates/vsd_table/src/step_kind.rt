//! The form of all kinds of step. These types are for the proofs alone.
ghost use Rattle.vsd_table.specs.StepKind.{Kind, made};

use atomic_table::Play;
use std::marker::PhantomData;
use vsd_rule::View;

/// A kind of step, as its proof sees it.
pub(crate) trait StepKind {
    ghost kind: { Kind };
}

/// What a step of the kind tells.
pub(crate) struct Made<K> {
    marker: PhantomData<K>,
}

impl<K: StepKind> Play<(), View> for Made<K> {
    ghost then = { made K.kind };
}
