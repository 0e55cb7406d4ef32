//! The words of a row that the caller protects. Each load of one finds what the caller's earlier loads
//! found: no word of a protected row is stored.
ghost use Rattle.std.specs.Prelude.{◌≡◌, ◌<◌, ℕ, IfSome};
ghost use Rattle.vsd_words.specs.declared.handle.Handle.{Handle};
ghost use Rattle.vsd_words.specs.Handle.{HandleInRange, IsHandlePacking};
ghost use Rattle.vsd_rule.specs.Lists.{site_token};
ghost use Rattle.vsd_rule.specs.RowSteps.{after_row_word};
ghost use Rattle.vsd_rule.specs.declared.step.RowWord.TheVariants as word;
ghost use Rattle.vsd_table.specs.Seating.{key_of, view_of, Belongs, Becomes};
ghost use Rattle.vsd_trails.specs.RowTrails.{reading_handle, reading_token, reading_target};
ghost use Rattle.vsd_rows.specs.Makes.{Makes};
ghost use Rattle.vsd_rows.specs.Hands.{IsProtected, IsSeenAgain, after_handle};

use crate::hand::Hand;
use vsd_table::{RowWord, Shared};
use vsd_words::Handle;

/// The row's handle, by one load.
pub fn row_handle(table: &Shared, hand: &mut Hand, row: u16) -> Handle
    requires seat { Belongs table.now hand.old.seated }
    requires row { row < (key_of table.now).sizes.rows }
    requires protected { IsProtected (view_of hand.old.seated) row }
    ensures trail { Makes hand.old.seated hand.new.seated (reading_handle row) result }
    ensures step { Becomes hand.old.seated hand.new.seated (after_handle (view_of hand.old.seated) row result) }
    ensures again { IsSeenAgain (view_of hand.old.seated) row (λ x. IfSome x.seen.handle (λ h. result ≡ h)) }
    ensures in_range { HandleInRange result }
    ensures seat { Belongs table.now hand.new.seated }
{
    let found = hand.seated.row_word(table, row, RowWord::Handle);
    unpacked(found)
}

/// The row's token, by one load.
pub fn row_token(table: &Shared, hand: &mut Hand, row: u16) -> u16
    requires seat { Belongs table.now hand.old.seated }
    requires row { row < (key_of table.now).sizes.rows }
    requires protected { IsProtected (view_of hand.old.seated) row }
    ensures trail { Makes hand.old.seated hand.new.seated (reading_token row) result }
    ensures step { Becomes hand.old.seated hand.new.seated
        (after_row_word (view_of hand.old.seated) row word.Token result) }
    ensures again { IsSeenAgain (view_of hand.old.seated) row (λ x. IfSome x.seen.token (λ t. result ≡ t)) }
    ensures site { IsSeenAgain (view_of hand.old.seated) row (λ x. IfSome x.site (λ s. result ≡ site_token (key_of table.now) s)) }
    ensures seat { Belongs table.now hand.new.seated }
{
    let found = hand.seated.row_word(table, row, RowWord::Token);
    found as u16
}

/// The row's target, by one load. Where the caller has loaded the row's handle, and its token or the
/// cell that named the row, it then has evidence of a call's answer.
pub fn row_target(table: &Shared, hand: &mut Hand, row: u16) -> u32
    requires seat { Belongs table.now hand.old.seated }
    requires row { row < (key_of table.now).sizes.rows }
    requires protected { IsProtected (view_of hand.old.seated) row }
    ensures trail { Makes hand.old.seated hand.new.seated (reading_target row) result }
    ensures step { Becomes hand.old.seated hand.new.seated
        (after_row_word (view_of hand.old.seated) row word.Target result) }
    ensures again { IsSeenAgain (view_of hand.old.seated) row (λ x. IfSome x.seen.target (λ t. result ≡ t)) }
    ensures seat { Belongs table.now hand.new.seated }
{
    let found = hand.seated.row_word(table, row, RowWord::Target);
    found as u32
}

/// The handle that a word of the table packs.
fn unpacked(word: u64) -> Handle
    requires { (h : Handle) × IsHandlePacking h word }
    ensures { IsHandlePacking result word }
{
    Handle::of_packing(word)
}
