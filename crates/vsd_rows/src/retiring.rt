//! Rows that nothing names any more: each waits in limbo until no caller can still protect it, and is
//! then free again (epoch-based reclamation).
ghost use Rattle.std.specs.Prelude.{◌≡◌, ◌≢◌, ◌<◌, ◌≤◌, ◌++◌, ◌↔◌, ℕ, [], ◌∷◌, length, true, false, IsTrue, Option, Some, None};
ghost use Rattle.vsd_rule.specs.RowSteps.{is_clear};
ghost use Rattle.vsd_rule.specs.RowFacts.{Leaves};
ghost use Rattle.vsd_table.specs.Seating.{key_of, view_of, Belongs};
ghost use Rattle.vsd_trails.specs.RowTrails.{has_room, retiring, sweeping, passing};
ghost use Rattle.vsd_trails.specs.declared.answers.Swept.{Swept};
ghost use Rattle.vsd_trails.specs.declared.answers.Swept.TheVariants.{Empty, Blocked, Freed};
ghost use Rattle.vsd_rows.specs.declared.limbo.Limbo.{Limbo};
ghost use Rattle.vsd_rows.specs.Retired.{retired_row};
ghost use Rattle.vsd_rows.specs.Makes.{Makes};
ghost use Rattle.vsd_rows.specs.Hands.{Retires, Sweeps};
ghost use Rattle.vsd_rows.specs.Sweeps.{SweptFor, HasOldest, IsFirst, IsPassed, Passing};

use crate::hand::Hand;
use crate::limbo::Limbo;
use vsd_table::{Seated, Shared};
use vsd_trails::Swept;

/// Whether two more rows can enter limbo: at most 14 are there.
pub fn room(hand: &Hand) -> bool
    ensures room { result ≡ has_room (view_of hand.now.seated).rows.limbo }
    ensures fits { IsTrue result → length hand.now.limbo.items ≤ 14 }
{
    hand.limbo.len() <= 14
}

/// Retires the row that the caller's latest exchange or swap took out of its cell or bucket: loads the
/// epoch, at most 2^62, with which the row enters limbo at its end, and where the epoch is below 2^62 tries
/// one exchange of it to the next one. Fewer than 16 rows are in limbo before.
pub fn retire(table: &Shared, hand: &mut Hand, row: u16)
    requires seat { Belongs table.now hand.old.seated }
    requires row { row < (key_of table.now).sizes.rows }
    requires leaves { Leaves (view_of hand.old.seated) row }
    requires room { length hand.old.limbo.items < 16 }
    ensures trail { Makes hand.old.seated hand.new.seated (retiring row) tt }
    ensures limbo { (epoch : ℕ) × (hand.new.limbo.items ≡ hand.old.limbo.items ++ record { row = row; epoch = epoch } ∷ [])
        × Retires (view_of hand.old.seated) (view_of hand.new.seated) row epoch }
    ensures seat { Belongs table.now hand.new.seated }
{
    let epoch = hand.seated.epoch_to_retire(table, row);
    hand.limbo.push(Limbo { row, epoch });
    if epoch < 1 << 62 {
        hand.seated.raise(table, epoch);
    }
}

/// Sweeps limbo: loads the epoch words of callers 0, 1 and so on until one blocks its oldest row. Where
/// none does, that row is free again. `Empty` comes exactly where limbo is empty.
pub fn sweep(table: &Shared, hand: &mut Hand) -> Swept
    requires seat { Belongs table.now hand.old.seated }
    requires unpinned { (view_of hand.old.seated).rows.pinned ≡ 0 }
    ensures trail { Makes hand.old.seated hand.new.seated (sweeping (key_of table.now)) result }
    ensures changes { Sweeps (view_of hand.old.seated) (view_of hand.new.seated) result }
    ensures cause { SweptFor (key_of table.now) hand.old.limbo.items hand.new.limbo.items result }
    ensures seat { Belongs table.now hand.new.seated }
{
    let Some(oldest) = oldest(hand) else {
        return Swept::Empty;
    };
    if let Some((caller, epoch)) = blocker(table, &mut hand.seated, oldest) {
        return Swept::Blocked { caller, epoch };
    }
    hand.seated.free_swept(table, oldest.row);
    hand.limbo.remove(0);
    Swept::Freed(oldest.row)
}

/// The row that has been in limbo longest.
fn oldest(hand: &Hand) -> Option<Limbo>
    ensures { HasOldest hand.now.limbo.items result }
{
    hand.limbo.first().copied()
}

/// Loads the callers' epoch words in order until one blocks the oldest row in limbo. Answers that
/// caller and its word, or `None` where no caller blocks the row.
fn blocker(table: &Shared, seated: &mut Seated, oldest: Limbo) -> Option<(u16, u64)>
    requires seat { Belongs table.now seated.old }
    requires waiting { IsFirst (view_of seated.old) oldest }
    ensures leads { Passing (key_of table.now) seated.old seated.new oldest result }
    ensures changes { IsPassed (view_of seated.old) (view_of seated.new) }
    ensures passed { result ≡ None → (view_of seated.new).rows.passed ≡ (key_of table.now).sizes.callers }
    ensures seat { Belongs table.now seated.new }
{
    for caller in 0..table.sizes().callers {
        let word = seated.epoch_of(table, caller);
        if !is_clear(oldest.epoch, word) {
            return Some((caller, word));
        }
    }
    None
}

/// Whether a caller with this epoch word is not pinned at the epoch or before.
fn is_clear(epoch: u64, word: u64) -> bool
    ensures { result ≡ is_clear epoch word }
{
    word == 0 || (word >= 2 && word - 2 >= epoch)
}
