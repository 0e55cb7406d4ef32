//! The part of a call that installs a row in a cell that was at Lookup.
ghost use Rattle.std.specs.Prelude.{◌≡◌, ◌<◌, ◌↔◌, Some, IsTrue};
ghost use Rattle.vsd_words.specs.declared.cell_word.CellWord.TheVariants.{Lookup};
ghost use Rattle.vsd_words.specs.Handle.{HandleInRange};
ghost use Rattle.vsd_rule.specs.Lists.{site_token};
ghost use Rattle.vsd_rule.specs.Evidence.{HasEvidence};
ghost use Rattle.vsd_rule.specs.RowFacts.{IsPrivate};
ghost use Rattle.vsd_table.specs.Seating.{key_of, view_of, Belongs};
ghost use Rattle.vsd_trails.specs.CallTrails.{installing, installing_in};
ghost use Rattle.vsd_rows.specs.Makes.{Makes};
ghost use Rattle.vsd_rows.specs.Leaving.{Goes};

use vsd_cells::to_dispatch;
use vsd_rows::{Hand, abandon, claim, fill};
use vsd_table::Shared;
use vsd_words::{CellWord, Handle};

/// Where the site's cell was loaded as Lookup and a row is free, fills the row with the pair and tries to
/// install it in the cell. The row is given up where the exchange was lost.
#[inline(always)]
pub(crate) fn install(
    table: &Shared,
    hand: &mut Hand,
    site: u16,
    token: u16,
    h: Handle,
    cell: CellWord,
    target: u32,
)
    requires seat { Belongs table.now hand.old.seated }
    requires site { site < (key_of table.now).sizes.sites }
    requires token { token ≡ site_token (key_of table.now) site }
    requires handle { HandleInRange h }
    requires evidence { HasEvidence (view_of hand.old.seated) h token target }
    ensures trail { Makes hand.old.seated hand.new.seated (installing (key_of table.now) site h cell target) tt }
    ensures goes { Goes (view_of hand.old.seated) (view_of hand.new.seated) }
    ensures seat { Belongs table.now hand.new.seated }
{
    if !is_lookup(cell) {
        return;
    }
    let Some(row) = claim(table, hand) else {
        return;
    };
    install_row(table, hand, site, row, token, h, target);
}

/// Whether a cell is at Lookup.
#[inline]
fn is_lookup(cell: CellWord) -> bool
    ensures { IsTrue result ↔ cell ≡ Lookup }
{
    cell == CellWord::Lookup
}

/// Fills the row and tries to install it.
#[inline(never)]
fn install_row(
    table: &Shared,
    hand: &mut Hand,
    site: u16,
    row: u16,
    token: u16,
    h: Handle,
    target: u32,
)
    requires seat { Belongs table.now hand.old.seated }
    requires site { site < (key_of table.now).sizes.sites }
    requires row { row < (key_of table.now).sizes.rows }
    requires token { token ≡ site_token (key_of table.now) site }
    requires handle { HandleInRange h }
    requires private { IsPrivate (view_of hand.old.seated) row }
    requires evidence { HasEvidence (view_of hand.old.seated) h token target }
    ensures trail { Makes hand.old.seated hand.new.seated (installing_in (key_of table.now) site h target (Some row)) tt }
    ensures goes { Goes (view_of hand.old.seated) (view_of hand.new.seated) }
    ensures seat { Belongs table.now hand.new.seated }
{
    fill(table, hand, row, h, token, target);
    if !to_dispatch(table, hand, site, row) {
        abandon(table, hand, row);
    }
}
