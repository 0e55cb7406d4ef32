//! The part of a call that looks at its cell: a dispatch stub.
ghost use Rattle.std.specs.Prelude.{◌≡◌, ◌<◌, ℕ, Some};
ghost use Rattle.vsd_words.specs.declared.cell_word.CellWord.TheVariants.{Dispatch};
ghost use Rattle.vsd_rule.specs.Lists.{site_token};
ghost use Rattle.vsd_rule.specs.RowSteps.{nothing_known};
ghost use Rattle.vsd_table.specs.Seating.{key_of, view_of, Belongs};
ghost use Rattle.vsd_trails.specs.Words.{same_handle};
ghost use Rattle.vsd_trails.specs.CallTrails.{stubbing};
ghost use Rattle.vsd_rows.specs.Makes.{Makes};
ghost use Rattle.vsd_rows.specs.Hands.{HasSeen};
ghost use Rattle.vsd_rows.specs.Leaving.{Goes};
ghost use Rattle.vsd_calls.specs.CellLooks.{stubbed_of, LookTells};

use crate::patching::patch;
use vsd_rows::{Hand, row_handle, row_target};
use vsd_table::Shared;
use vsd_words::{CellWord, Handle};

/// What a call's look at its cell finds.
#[derive(Clone, Copy, PartialEq, Eq, Debug)]
pub(crate) enum CellLook {
    /// The row that the cell dispatches through has the handle, and this target.
    Hit(u32),
    /// It has this other handle, or the cell dispatches through no row.
    Miss(Option<Handle>),
}

/// On Dispatch loads the row's handle, and where it is the call's the row's target, of which the caller
/// then has evidence. Where it is another, counts the miss and may patch the cell.
#[inline]
pub(crate) fn stub(
    table: &Shared,
    hand: &mut Hand,
    site: u16,
    token: u16,
    h: Handle,
    cell: CellWord,
) -> CellLook
    requires seat { Belongs table.now hand.old.seated }
    requires site { site < (key_of table.now).sizes.sites }
    requires token { token ≡ site_token (key_of table.now) site }
    requires token_in { token < (key_of table.now).sizes.tokens }
    requires in_table { (row : ℕ) → cell ≡ Dispatch row → row < (key_of table.now).sizes.rows }
    requires named { (row : ℕ) → cell ≡ Dispatch row → HasSeen (view_of hand.old.seated) row (Some site) nothing_known }
    ensures trail { Makes hand.old.seated hand.new.seated (stubbing (key_of table.now) site h cell) (stubbed_of result) }
    ensures tells { LookTells (view_of hand.new.seated) token h result }
    ensures goes { Goes (view_of hand.old.seated) (view_of hand.new.seated) }
    ensures seat { Belongs table.now hand.new.seated }
{
    let CellWord::Dispatch(row) = cell else {
        return CellLook::Miss(None);
    };
    stub_row(table, hand, site, token, h, row)
}

/// The look at the row that the cell dispatches through.
#[inline]
fn stub_row(table: &Shared, hand: &mut Hand, site: u16, token: u16, h: Handle, row: u16) -> CellLook
    requires seat { Belongs table.now hand.old.seated }
    requires site { site < (key_of table.now).sizes.sites }
    requires row { row < (key_of table.now).sizes.rows }
    requires token { token ≡ site_token (key_of table.now) site }
    requires token_in { token < (key_of table.now).sizes.tokens }
    requires named { HasSeen (view_of hand.old.seated) row (Some site) nothing_known }
    ensures trail { Makes hand.old.seated hand.new.seated (stubbing (key_of table.now) site h (Dispatch row)) (stubbed_of result) }
    ensures tells { LookTells (view_of hand.new.seated) token h result }
    ensures goes { Goes (view_of hand.old.seated) (view_of hand.new.seated) }
    ensures seat { Belongs table.now hand.new.seated }
{
    let g = row_handle(table, hand, row);
    if is_handle(g, h) {
        return CellLook::Hit(row_target(table, hand, row));
    }
    patch(table, hand, site, token, row);
    CellLook::Miss(Some(g))
}

/// Whether two handles are one.
#[inline]
fn is_handle(g: Handle, h: Handle) -> bool
    ensures { result ≡ same_handle g h }
{
    g == h
}
