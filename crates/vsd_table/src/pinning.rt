//! The steps by which a caller pins itself at the epoch and unpins itself.
ghost use Rattle.std.specs.Prelude.{◌≡◌, ◌≤◌, ◌^◌, Some};
ghost use Rattle.vsd_rule.specs.Evidence.{CallsAgree};
ghost use Rattle.vsd_rule.specs.RowSteps.{after_epoch, after_pin, after_unpin};
ghost use Rattle.vsd_table.specs.Seating.{view_of, Belongs, Becomes, BecomesDoing};

use crate::epoch_kinds::{LoadEpoch, Pin, Unpin};
use crate::seated::Seated;
use crate::shared::Shared;
use vsd_rule::{Begins, Doing};

impl Seated {
    /// Loads the epoch, at most 2^62, and begins this operation. `Doing::Nothing` begins none.
    #[inline]
    pub fn epoch(&mut self, table: &Shared, doing: Doing) -> u64
        requires seat { Belongs table.now self.old }
        ensures step { BecomesDoing self.old self.new (after_epoch (view_of self.old) result) doing }
        ensures seat { Belongs table.now self.new }
        ensures small { result ≤ 2 ^ 62 }
    {
        let found = self.load::<LoadEpoch>(table, 0);
        self.begun = self.begun.and(&Begins::Operation(doing));
        found
    }

    /// Pins the caller at the epoch that it loaded last: stores one more in its epoch word. From
    /// here on it protects each row that it loads from a cell or a bucket.
    #[inline]
    pub fn pin(&mut self, table: &Shared, epoch: u64)
        requires seat { Belongs table.now self.old }
        requires unpinned { (view_of self.old).rows.pinned ≡ 0 }
        requires loaded { (view_of self.old).rows.epoch ≡ Some epoch }
        ensures step { Becomes self.old self.new (after_pin (view_of self.old) epoch) }
        ensures seat { Belongs table.now self.new }
    {
        let index = table.pin_index(self.caller);
        self.store::<Pin>(table, index, epoch + 1);
    }

    /// Unpins the caller: stores 0 in its epoch word. It protects no row any more. All evidence that
    /// it has for answers to calls agrees with all that it knows of handles.
    #[inline]
    pub fn unpin(&mut self, table: &Shared)
        requires seat { Belongs table.now self.old }
        requires pinned { ¬ ((view_of self.old).rows.pinned ≡ 0) }
        ensures step { Becomes self.old self.new (after_unpin (view_of self.old)) }
        ensures seat { Belongs table.now self.new }
        ensures agree { CallsAgree (view_of self.new) }
    {
        let index = table.pin_index(self.caller);
        self.store::<Unpin>(table, index, 0);
    }
}
