//! The steps by which a caller retires rows and sweeps its limbo.
ghost use Rattle.std.specs.Prelude.{◌≡◌, ◌≢◌, ◌<◌, ◌≤◌, ◌^◌, ◌↔◌, ℕ, List, [], ◌∷◌, length, IsTrue};
ghost use Rattle.vsd_rule.specs.RowSteps.{after_epoch_to_retire, after_raise, after_epoch_of, after_free_swept};
ghost use Rattle.vsd_rule.specs.RowFacts.{Leaves, IsOldest};
ghost use Rattle.vsd_table.specs.Seating.{key_of, view_of, Belongs, Becomes};

use crate::limbo_kinds::{EpochOf, EpochToRetire, FreeSwept, Raise};
use crate::seated::Seated;
use crate::shared::Shared;
use vsd_rule::RowWord;

impl Seated {
    /// Retires the row that the caller's latest exchange or swap took out of its cell or bucket:
    /// loads the epoch, at most 2^62, with which the row enters limbo. Whoever protects the row is
    /// pinned at that epoch or before. At most 16 rows are in limbo, this one with them.
    #[inline]
    pub fn epoch_to_retire(&mut self, table: &Shared, row: u16) -> u64
        requires seat { Belongs table.now self.old }
        requires row { row < (key_of table.now).sizes.rows }
        requires leaves { Leaves (view_of self.old) row }
        requires room { length (view_of self.old).rows.limbo < 16 }
        ensures step { Becomes self.old self.new (after_epoch_to_retire (view_of self.old) row result) }
        ensures seat { Belongs table.now self.new }
        ensures small { result ≤ 2 ^ 62 }
    {
        self.load::<EpochToRetire>(table, 0)
    }

    /// Tries to raise the epoch by one from `epoch`, below 2^62, by one exchange. Answers whether it
    /// was won, and the epoch found.
    #[inline]
    pub fn raise(&mut self, table: &Shared, epoch: u64) -> (bool, u64)
        requires seat { Belongs table.now self.old }
        requires epoch { epoch < 2 ^ 62 }
        ensures won { IsTrue result.0 ↔ result.1 ≡ epoch }
        ensures step { Becomes self.old self.new (after_raise (view_of self.old) epoch result.1) }
        ensures seat { Belongs table.now self.new }
    {
        let found = self.exchange::<Raise>(table, 0, epoch, epoch + 1);
        (found == epoch, found)
    }

    /// Loads a caller's epoch word for the sweep of the oldest row in limbo: 0 where the caller isn't
    /// pinned, else one more than the epoch at which it is. A sweep begins at caller 0, and passes a
    /// caller whose word is 0 or at least the row's epoch plus 2.
    #[inline]
    pub fn epoch_of(&mut self, table: &Shared, caller: u16) -> u64
        requires seat { Belongs table.now self.old }
        requires caller { caller < (key_of table.now).sizes.callers }
        requires waiting { (view_of self.old).rows.limbo ≢ [] }
        ensures step { Becomes self.old self.new (after_epoch_of (view_of self.old) caller result) }
        ensures seat { Belongs table.now self.new }
    {
        let index = table.pin_index(caller);
        self.load::<EpochOf>(table, index)
    }

    /// Frees the oldest row in limbo, once the running sweep has passed every caller: stores free in
    /// its claim word.
    #[inline]
    pub fn free_swept(&mut self, table: &Shared, row: u16)
        requires seat { Belongs table.now self.old }
        requires row { row < (key_of table.now).sizes.rows }
        requires oldest { IsOldest (view_of self.old) row }
        requires passed { (view_of self.old).rows.passed ≡ (key_of table.now).sizes.callers }
        ensures step { Becomes self.old self.new (after_free_swept (view_of self.old) row) }
        ensures seat { Belongs table.now self.new }
    {
        let index = table.row_word_index(row, RowWord::Claim);
        self.store::<FreeSwept>(table, index, 0);
    }
}
