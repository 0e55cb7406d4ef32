//! The cells of call sites.
ghost use Rattle.std.specs.Prelude.{◌≡◌, ◌<◌, ◌+◌, ℕ, IsTrue, false};
ghost use Rattle.vsd_words.specs.declared.cell_word.CellWord.TheVariants.{Lookup, Dispatch};
ghost use Rattle.vsd_rule.specs.declared.step.Act.TheVariants.{ToDispatch, ToResolve, ToLookup};
ghost use Rattle.vsd_rule.specs.RowSteps.{after_cell, after_to_dispatch, after_to_resolve, after_to_lookup};
ghost use Rattle.vsd_rule.specs.RowFacts.{IsPrivate, IsFilledFor, Leaves};
ghost use Rattle.vsd_table.specs.Seating.{key_of, view_of, Belongs, Becomes};
ghost use Rattle.vsd_trails.specs.RowTrails.{reading_cell, trying};
ghost use Rattle.vsd_rows.specs.Makes.{Makes};
ghost use Rattle.vsd_rows.specs.Hands.{IsProtected};
ghost use Rattle.vsd_cells.specs.Cells.{Exchanges};

use vsd_rows::Hand;
use vsd_table::Shared;
use vsd_words::CellWord;

/// The site's cell, by one load. A row that it names is below the sizes' `rows` and has the site's token,
/// and the caller protects it from here on until it unpins.
pub fn read(table: &Shared, hand: &mut Hand, site: u16) -> CellWord
    requires seat { Belongs table.now hand.old.seated }
    requires site { site < (key_of table.now).sizes.sites }
    requires pinned { 0 < (view_of hand.old.seated).rows.pinned }
    ensures trail { Makes hand.old.seated hand.new.seated (reading_cell site) result }
    ensures step { Becomes hand.old.seated hand.new.seated (after_cell (view_of hand.old.seated) site result) }
    ensures protects { (row : ℕ) → result ≡ Dispatch row → IsProtected (view_of hand.new.seated) row }
    ensures in_table { (row : ℕ) → result ≡ Dispatch row → row < (key_of table.now).sizes.rows }
    ensures seat { Belongs table.now hand.new.seated }
{
    hand.seated.cell(table, site)
}

/// Tries to install a filled row in the site's cell, by one exchange from Lookup to Dispatch of the row.
/// False comes exactly where the exchange found another word; the row is then private still.
pub fn to_dispatch(table: &Shared, hand: &mut Hand, site: u16, row: u16) -> bool
    requires seat { Belongs table.now hand.old.seated }
    requires site { site < (key_of table.now).sizes.sites }
    requires row { row < (key_of table.now).sizes.rows }
    requires filled { IsFilledFor (view_of hand.old.seated) row site }
    ensures trail { Makes hand.old.seated hand.new.seated (trying (ToDispatch site row) 0) result }
    ensures exchange { Exchanges hand.old.seated hand.new.seated Lookup (after_to_dispatch (view_of hand.old.seated) site row) result }
    ensures lost { result ≡ false → IsPrivate (view_of hand.new.seated) row }
    ensures seat { Belongs table.now hand.new.seated }
{
    hand.seated.to_dispatch(table, site, row).0
}

/// Tries to take the row out of the site's cell, by one exchange from Dispatch of it to Resolve. False
/// comes exactly where the exchange found another word. Where it was won, the caller keeps the row.
pub fn to_resolve(table: &Shared, hand: &mut Hand, site: u16, row: u16) -> bool
    requires seat { Belongs table.now hand.old.seated }
    requires site { site < (key_of table.now).sizes.sites }
    requires row { row < (key_of table.now).sizes.rows }
    ensures trail { Makes hand.old.seated hand.new.seated (trying (ToResolve site row) (2 + row)) result }
    ensures exchange { Exchanges hand.old.seated hand.new.seated (Dispatch row) (after_to_resolve (view_of hand.old.seated) site row) result }
    ensures leaves { IsTrue result → Leaves (view_of hand.new.seated) row }
    ensures seat { Belongs table.now hand.new.seated }
{
    hand.seated.to_resolve(table, site, row).0
}

/// Tries to take the row out of the site's cell, by one exchange from Dispatch of it to Lookup. False
/// comes exactly where the exchange found another word. Where it was won, the caller keeps the row.
pub fn to_lookup(table: &Shared, hand: &mut Hand, site: u16, row: u16) -> bool
    requires seat { Belongs table.now hand.old.seated }
    requires site { site < (key_of table.now).sizes.sites }
    requires row { row < (key_of table.now).sizes.rows }
    ensures trail { Makes hand.old.seated hand.new.seated (trying (ToLookup site row) (2 + row)) result }
    ensures exchange { Exchanges hand.old.seated hand.new.seated (Dispatch row) (after_to_lookup (view_of hand.old.seated) site row) result }
    ensures leaves { IsTrue result → Leaves (view_of hand.new.seated) row }
    ensures seat { Belongs table.now hand.new.seated }
{
    hand.seated.to_lookup(table, site, row).0
}
