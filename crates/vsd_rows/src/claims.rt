//! Rows of one's own: a caller claims a free row, fills it with what it has evidence of, and gives it
//! up where it could not publish it.
ghost use Rattle.std.specs.Prelude.{◌≡◌, ◌<◌, min, IfSome, IfNone};
ghost use Rattle.vsd_words.specs.Handle.{HandleInRange};
ghost use Rattle.vsd_rule.specs.Evidence.{HasEvidence};
ghost use Rattle.vsd_rule.specs.RowSteps.{next_row, after_free};
ghost use Rattle.vsd_rule.specs.RowFacts.{IsPrivate, IsFilled};
ghost use Rattle.vsd_table.specs.Seating.{key_of, view_of, Belongs, Becomes};
ghost use Rattle.vsd_trails.specs.RowTrails.{claiming_row, claiming, filling, abandoning};
ghost use Rattle.vsd_rows.specs.Makes.{Makes};
ghost use Rattle.vsd_rows.specs.Claiming.{FoundClaimed};
ghost use Rattle.vsd_rows.specs.Hands.{Claims, given_if, after_fill};

use crate::hand::Hand;
use vsd_table::{RowWord, Shared};
use vsd_words::Handle;

/// Claims a free row, below the sizes' `rows`, which is then private to the caller. Tries eight rows at
/// most, from the cursor on, round the end: each by one load and, where it was loaded as free, one
/// exchange. The cursor then stands after the last row tried.
///
/// `None` comes only where each of these rows was loaded as claimed or its exchange was lost, and
/// without a step where there are no rows.
pub fn claim(table: &Shared, hand: &mut Hand) -> Option<u16>
    requires seat { Belongs table.now hand.old.seated }
    ensures trail { Makes hand.old.seated hand.new.seated (claiming (key_of table.now)) result }
    ensures cause { IfNone result (FoundClaimed (key_of table.now) hand.old.cursor hand.old.seated hand.new.seated) }
    ensures changes { Claims (view_of hand.old.seated) (view_of hand.new.seated) result }
    ensures private { IfSome result (IsPrivate (view_of hand.new.seated)) }
    ensures in_table { IfSome result (λ row. row < (key_of table.now).sizes.rows) }
    ensures seat { Belongs table.now hand.new.seated }
{
    for _tried in 0..most_tried(table) {
        let row = hand.cursor;
        if claim_next(table, hand) {
            return Some(row);
        }
    }
    None
}

/// How many rows one claim tries.
fn most_tried(table: &Shared) -> u16
    ensures { result ≡ min 8 (key_of table.now).sizes.rows }
{
    table.sizes().rows.min(8)
}

/// Tries to claim the row at the cursor, which moves to the row after it.
fn claim_next(table: &Shared, hand: &mut Hand) -> bool
    requires seat { Belongs table.now hand.old.seated }
    requires some_row { hand.old.cursor < (key_of table.now).sizes.rows }
    ensures trail { Makes hand.old.seated hand.new.seated (claiming_row hand.old.cursor) result }
    ensures changes { Claims (view_of hand.old.seated) (view_of hand.new.seated) (given_if result hand.old.cursor) }
    ensures cursor { hand.new.cursor ≡ next_row (key_of table.now) hand.old.cursor }
    ensures seat { Belongs table.now hand.new.seated }
{
    let row = hand.cursor;
    let free = hand.seated.row_word(table, row, RowWord::Claim) == 0;
    hand.cursor = next_row(table, row);
    free && hand.seated.claim(table, row).0
}

/// The row after it, round the end.
fn next_row(table: &Shared, row: u16) -> u16
    requires { row < (key_of table.now).sizes.rows }
    ensures { result ≡ next_row (key_of table.now) row }
{
    if row + 1 < table.sizes().rows {
        row + 1
    } else {
        0
    }
}

/// Stores a handle, a token and a target in a private row. The caller has the evidence that a call on
/// the handle through the token has this target.
pub fn fill(table: &Shared, hand: &mut Hand, row: u16, h: Handle, token: u16, target: u32)
    requires seat { Belongs table.now hand.old.seated }
    requires row { row < (key_of table.now).sizes.rows }
    requires handle { HandleInRange h }
    requires private { IsPrivate (view_of hand.old.seated) row }
    requires evidence { HasEvidence (view_of hand.old.seated) h token target }
    ensures trail { Makes hand.old.seated hand.new.seated (filling row h token target) tt }
    ensures step { Becomes hand.old.seated hand.new.seated (after_fill (view_of hand.old.seated) row h token target) }
    ensures filled { IsFilled (view_of hand.new.seated) row h token target }
    ensures seat { Belongs table.now hand.new.seated }
{
    hand.seated.set_handle(table, row, h);
    hand.seated.set_token(table, row, token);
    hand.seated.set_target(table, row, target);
}

/// Gives up a private row: stores free in its claim word.
pub fn abandon(table: &Shared, hand: &mut Hand, row: u16)
    requires seat { Belongs table.now hand.old.seated }
    requires row { row < (key_of table.now).sizes.rows }
    requires private { IsPrivate (view_of hand.old.seated) row }
    ensures trail { Makes hand.old.seated hand.new.seated (abandoning row) tt }
    ensures step { Becomes hand.old.seated hand.new.seated (after_free (view_of hand.old.seated) row) }
    ensures seat { Belongs table.now hand.new.seated }
{
    hand.seated.free(table, row);
}
