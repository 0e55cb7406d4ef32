//! The counters of misses, one for each token.
ghost use Rattle.std.specs.Prelude.{◌≡◌, ◌<◌, ℕ};
ghost use Rattle.vsd_rule.specs.RowSteps.{after_count};
ghost use Rattle.vsd_table.specs.Seating.{key_of, view_of, Belongs, Becomes};
ghost use Rattle.vsd_trails.specs.Words.{counted};
ghost use Rattle.vsd_trails.specs.CallTrails.{counting};
ghost use Rattle.vsd_rows.specs.Makes.{Makes};

use vsd_rows::Hand;
use vsd_table::Shared;

/// Adds one to the token's counter, by one fetch and add. Answers the new count, or the count found
/// where that is 2^64 - 1. The count only chooses whether a cell is patched.
pub fn miss(table: &Shared, hand: &mut Hand, token: u16) -> u64
    requires seat { Belongs table.now hand.old.seated }
    requires token { token < (key_of table.now).sizes.tokens }
    ensures trail { Makes hand.old.seated hand.new.seated (counting token) result }
    ensures step { (found : ℕ) × (result ≡ counted found)
        × Becomes hand.old.seated hand.new.seated (after_count (view_of hand.old.seated) token found) }
    ensures seat { Belongs table.now hand.new.seated }
{
    let found = hand.seated.count(table, token);
    found.saturating_add(1)
}
