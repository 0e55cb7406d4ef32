//! The steps on cells and on the counters of misses.
ghost use Rattle.std.specs.Prelude.{◌≡◌, ◌<◌, ◌↔◌, IsTrue};
ghost use Rattle.vsd_words.specs.declared.cell_word.CellWord.{CellWord};
ghost use Rattle.vsd_words.specs.declared.cell_word.CellWord.TheVariants.{Lookup, Dispatch};
ghost use Rattle.vsd_words.specs.CellWord.{IsCellPacking};
ghost use Rattle.vsd_rule.specs.RowSteps.{after_cell, after_to_dispatch, after_to_resolve, after_to_lookup, after_count};
ghost use Rattle.vsd_rule.specs.RowFacts.{IsFilledFor, CellInTable};
ghost use Rattle.vsd_table.specs.Seating.{key_of, view_of, Belongs, Becomes};

use crate::cell_kinds::{Count, LoadCell, ToDispatch, ToLookup, ToResolve};
use crate::seated::Seated;
use crate::shared::Shared;
use vsd_words::CellWord;

impl Seated {
    /// Loads a site's cell. A row that it names is below the sizes' `rows`, and a pinned caller
    /// protects it from here on.
    #[inline]
    pub fn cell(&mut self, table: &Shared, site: u16) -> CellWord
        requires seat { Belongs table.now self.old }
        requires site { site < (key_of table.now).sizes.sites }
        ensures step { Becomes self.old self.new (after_cell (view_of self.old) site result) }
        ensures seat { Belongs table.now self.new }
        ensures in_table { CellInTable (view_of self.old) result }
    {
        let index = table.cell_index(site);
        let found = self.load::<LoadCell>(table, index);
        unpacked(found)
    }

    /// Tries to publish a filled row in a site's cell by one exchange from Lookup to Dispatch of
    /// it. Answers whether it was won, and the cell found. Where it was lost, the row stays private.
    #[inline]
    pub fn to_dispatch(&mut self, table: &Shared, site: u16, row: u16) -> (bool, CellWord)
        requires seat { Belongs table.now self.old }
        requires site { site < (key_of table.now).sizes.sites }
        requires row { row < (key_of table.now).sizes.rows }
        requires filled { IsFilledFor (view_of self.old) row site }
        ensures won { IsTrue result.0 ↔ result.1 ≡ Lookup }
        ensures step { Becomes self.old self.new (after_to_dispatch (view_of self.old) site row result.1) }
        ensures seat { Belongs table.now self.new }
    {
        let index = table.cell_index(site);
        let new = table.packed_dispatch(row);
        let found = unpacked(self.exchange::<ToDispatch>(table, index, 0, new));
        (found == CellWord::Lookup, found)
    }

    /// Tries to unlink a row from a site's cell by one exchange from Dispatch of it to Resolve.
    /// Answers whether it was won, and the cell found. Where it was won, the caller keeps the row.
    #[inline]
    pub fn to_resolve(&mut self, table: &Shared, site: u16, row: u16) -> (bool, CellWord)
        requires seat { Belongs table.now self.old }
        requires site { site < (key_of table.now).sizes.sites }
        requires row { row < (key_of table.now).sizes.rows }
        ensures won { IsTrue result.0 ↔ result.1 ≡ Dispatch row }
        ensures step { Becomes self.old self.new (after_to_resolve (view_of self.old) site row result.1) }
        ensures seat { Belongs table.now self.new }
    {
        let index = table.cell_index(site);
        let old = table.packed_dispatch(row);
        let found = unpacked(self.exchange::<ToResolve>(table, index, old, 1));
        (found == CellWord::Dispatch(row), found)
    }

    /// Tries to unlink a row from a site's cell by one exchange from Dispatch of it to Lookup.
    /// Answers whether it was won, and the cell found. Where it was won, the caller keeps the row.
    #[inline]
    pub fn to_lookup(&mut self, table: &Shared, site: u16, row: u16) -> (bool, CellWord)
        requires seat { Belongs table.now self.old }
        requires site { site < (key_of table.now).sizes.sites }
        requires row { row < (key_of table.now).sizes.rows }
        ensures won { IsTrue result.0 ↔ result.1 ≡ Dispatch row }
        ensures step { Becomes self.old self.new (after_to_lookup (view_of self.old) site row result.1) }
        ensures seat { Belongs table.now self.new }
    {
        let index = table.cell_index(site);
        let old = table.packed_dispatch(row);
        let found = unpacked(self.exchange::<ToLookup>(table, index, old, 0));
        (found == CellWord::Dispatch(row), found)
    }

    /// Adds one to a token's counter of misses, round the end. Answers the count before.
    #[inline]
    pub fn count(&mut self, table: &Shared, token: u16) -> u64
        requires seat { Belongs table.now self.old }
        requires token { token < (key_of table.now).sizes.tokens }
        ensures step { Becomes self.old self.new (after_count (view_of self.old) token result) }
        ensures seat { Belongs table.now self.new }
    {
        let index = table.count_index(token);
        self.add::<Count>(table, index, 1)
    }
}

/// The cell that a word of the table packs.
#[inline]
fn unpacked(word: u64) -> CellWord
    requires { (w : CellWord) × IsCellPacking w word }
    ensures { IsCellPacking result word }
{
    CellWord::of_packing(word)
}
