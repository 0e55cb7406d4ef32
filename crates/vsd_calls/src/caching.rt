//! The part of a call that puts the pair of a walk into its bucket.
ghost use Rattle.std.specs.Prelude.{◌≡◌, ◌<◌, ◌≤◌, Some, length};
ghost use Rattle.vsd_words.specs.Handle.{HandleInRange};
ghost use Rattle.vsd_rule.specs.Evidence.{HasEvidence};
ghost use Rattle.vsd_rule.specs.RowFacts.{IsPrivate};
ghost use Rattle.vsd_table.specs.Seating.{key_of, view_of, Belongs};
ghost use Rattle.vsd_trails.specs.CallTrails.{caching, caching_in};
ghost use Rattle.vsd_rows.specs.Makes.{Makes};
ghost use Rattle.vsd_rows.specs.Leaving.{Goes};

use vsd_rcache::put;
use vsd_rows::{Hand, claim, fill, retire, room};
use vsd_table::Shared;
use vsd_words::Handle;

/// Puts a pair with its target into the pair's bucket, where limbo has room and a row is free. The row
/// that came out is retired.
#[inline(never)]
pub(crate) fn cache(table: &Shared, hand: &mut Hand, token: u16, h: Handle, target: u32)
    requires seat { Belongs table.now hand.old.seated }
    requires handle { HandleInRange h }
    requires evidence { HasEvidence (view_of hand.old.seated) h token target }
    ensures trail { Makes hand.old.seated hand.new.seated (caching (key_of table.now) token h target) tt }
    ensures goes { Goes (view_of hand.old.seated) (view_of hand.new.seated) }
    ensures seat { Belongs table.now hand.new.seated }
{
    if !room(hand) {
        return;
    }
    let Some(row) = claim(table, hand) else {
        return;
    };
    put_pair(table, hand, row, token, h, target);
}

/// Fills the row, swaps it into the pair's bucket, and retires the row that came out, if any.
fn put_pair(table: &Shared, hand: &mut Hand, row: u16, token: u16, h: Handle, target: u32)
    requires seat { Belongs table.now hand.old.seated }
    requires row { row < (key_of table.now).sizes.rows }
    requires handle { HandleInRange h }
    requires private { IsPrivate (view_of hand.old.seated) row }
    requires evidence { HasEvidence (view_of hand.old.seated) h token target }
    requires room { length (view_of hand.old.seated).rows.limbo ≤ 14 }
    ensures trail { Makes hand.old.seated hand.new.seated (caching_in (key_of table.now) token h target (Some row)) tt }
    ensures goes { Goes (view_of hand.old.seated) (view_of hand.new.seated) }
    ensures seat { Belongs table.now hand.new.seated }
{
    fill(table, hand, row, h, token, target);
    if let Some(out) = put(table, hand, row, token, h) {
        retire(table, hand, out);
    }
}
