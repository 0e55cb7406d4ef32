//! Callers of a runtime.
ghost use Rattle.std.specs.Prelude.{◌≡◌, length};
ghost use Rattle.vsd_table.specs.Seating.{view_of, IsNew};
ghost use Rattle.vsd_handles.specs.Owned.{AreWordsOf};
ghost use Rattle.vsd_core.specs.Resting.{Rests};

use vsd_handles::Owned;
use vsd_rows::Hand;
use vsd_table::{Seated, Shared};

/// One caller of a runtime: its hand, and the words of its own 64 handle rows as it last stored them.
/// Between two calls it isn't pinned, none of its operations is unfinished, and it has the evidence for
/// each answer in its log.
#[derive(Drop)]
pub struct Caller {
    pub(crate) hand: Hand,
    pub(crate) owned: Owned,
    ghost words: { AreWordsOf owned hand },
    ghost count: { length owned ≡ 64 },
    ghost unpinned: { (view_of hand.seated).rows.pinned ≡ 0 },
    ghost rests: { ∥ Rests hand.seated ∥₁ },
}

impl Caller {
    ghost use Rattle.vsd_core.specs.Callers.{seat_of, IsNewCaller};

    /// The caller of a seat that has made no step.
    pub(crate) fn new(table: &Shared, seated: Seated) -> Caller
        requires { IsNew table.now seated }
        ensures caller { IsNewCaller table.now result }
        ensures seat { seat_of result ≡ seated }
    {
        let hand = Hand::new(table, seated);
        let owned = Owned::new(&hand);
        Caller { hand, owned }
    }
}
