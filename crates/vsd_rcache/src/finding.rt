//! The search for a pair of token and handle.
ghost use Rattle.std.specs.Prelude.{◌≡◌, ◌≢◌, ◌<◌, ◌&&◌, ℕ, nat_eq, None, Some};
ghost use Rattle.vsd_words.specs.declared.handle.Handle.{Handle};
ghost use Rattle.vsd_words.specs.Handle.{HandleInRange};
ghost use Rattle.vsd_rule.specs.Evidence.{HasEvidence};
ghost use Rattle.vsd_rule.specs.RowSteps.{nothing_known};
ghost use Rattle.vsd_table.specs.Seating.{key_of, view_of, Belongs};
ghost use Rattle.vsd_trails.specs.declared.answers.Found.TheVariants.{Hit, Other};
ghost use Rattle.vsd_trails.specs.Words.{same_handle};
ghost use Rattle.vsd_trails.specs.CallTrails.{finding, finding_in};
ghost use Rattle.vsd_rows.specs.Makes.{Makes};
ghost use Rattle.vsd_rows.specs.Hands.{HasSeen};
ghost use Rattle.vsd_rcache.specs.Finding.{Finds, FoundFor};

use crate::buckets::{bucket_for, look};
use vsd_rows::{Hand, row_handle, row_target, row_token};
use vsd_table::Shared;
use vsd_trails::Found;
use vsd_words::Handle;

/// Looks the pair up in its bucket: loads the bucket, of a row that it names the handle and the token,
/// and where both are the pair's the target, of which the caller then has evidence. `Empty` comes
/// exactly where the bucket was loaded as 0, `Other` exactly where the handle or the token, which it
/// carries, is another.
pub fn find(table: &Shared, hand: &mut Hand, token: u16, h: Handle) -> Found
    requires seat { Belongs table.now hand.old.seated }
    requires handle { HandleInRange h }
    requires pinned { 0 < (view_of hand.old.seated).rows.pinned }
    ensures trail { Makes hand.old.seated hand.new.seated (finding (key_of table.now) token h) result }
    ensures changes { Finds (view_of hand.old.seated) (view_of hand.new.seated) }
    ensures found { FoundFor (view_of hand.new.seated) token h result }
    ensures seat { Belongs table.now hand.new.seated }
{
    let bucket = bucket_for(table, token, h);
    let Some(row) = look(table, hand, bucket) else {
        return Found::Empty;
    };
    find_in(table, hand, row, token, h)
}

/// Whether the row that the bucket named is the pair's.
fn find_in(table: &Shared, hand: &mut Hand, row: u16, token: u16, h: Handle) -> Found
    requires seat { Belongs table.now hand.old.seated }
    requires row { row < (key_of table.now).sizes.rows }
    requires named { HasSeen (view_of hand.old.seated) row None nothing_known }
    ensures trail { Makes hand.old.seated hand.new.seated (finding_in token h (Some row)) result }
    ensures changes { Finds (view_of hand.old.seated) (view_of hand.new.seated) }
    ensures found { FoundFor (view_of hand.new.seated) token h result }
    ensures seat { Belongs table.now hand.new.seated }
{
    let g = row_handle(table, hand, row);
    let t = row_token(table, hand, row);
    if is_pair(g, t, h, token) {
        Found::Hit(row_target(table, hand, row))
    } else {
        Found::Other(g, t)
    }
}

/// Whether two pairs of handle and token are one.
fn is_pair(g: Handle, t: u16, h: Handle, token: u16) -> bool
    ensures { result ≡ (same_handle g h && nat_eq t token) }
{
    g == h && t == token
}
