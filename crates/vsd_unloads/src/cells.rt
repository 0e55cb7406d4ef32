//! The part of an unload that goes over the cells of all sites.
ghost use Rattle.std.specs.Prelude.{◌≡◌, ◌<◌, ◌≤◌, length};
ghost use Rattle.vsd_words.specs.declared.cell_word.CellWord.TheVariants.{Dispatch};
ghost use Rattle.vsd_rule.specs.declared.step.Act.TheVariants.{ToLookup};
ghost use Rattle.vsd_table.specs.Seating.{key_of, view_of, Belongs};
ghost use Rattle.vsd_trails.specs.RowTrails.{unlinking};
ghost use Rattle.vsd_trails.specs.UnloadTrails.{purging_cell, purging_cells};
ghost use Rattle.vsd_rows.specs.Makes.{Makes};
ghost use Rattle.vsd_rows.specs.Hands.{IsProtected};
ghost use Rattle.vsd_rows.specs.Leaving.{Goes};
ghost use Rattle.vsd_unloads.specs.Parts.{purging_site};

use crate::due::is_due;
use vsd_cells::{read, to_lookup};
use vsd_rows::{Hand, retire};
use vsd_table::Shared;
use vsd_words::{CellWord, Handle};

/// Purges the cell of each site, in order.
pub(crate) fn purge_cells(table: &Shared, hand: &mut Hand, h: Handle)
    requires seat { Belongs table.now hand.old.seated }
    requires pinned { 0 < (view_of hand.old.seated).rows.pinned }
    ensures trail { Makes hand.old.seated hand.new.seated (purging_cells h (key_of table.now).sizes.sites 0) tt }
    ensures goes { Goes (view_of hand.old.seated) (view_of hand.new.seated) }
    ensures seat { Belongs table.now hand.new.seated }
{
    for site in 0..table.sizes().sites {
        purge_cell(table, hand, h, site);
    }
}

/// Loads the site's cell, and purges it of the handle.
fn purge_cell(table: &Shared, hand: &mut Hand, h: Handle, site: u16)
    requires seat { Belongs table.now hand.old.seated }
    requires site { site < (key_of table.now).sizes.sites }
    requires pinned { 0 < (view_of hand.old.seated).rows.pinned }
    ensures trail { Makes hand.old.seated hand.new.seated (purging_site h site) tt }
    ensures goes { Goes (view_of hand.old.seated) (view_of hand.new.seated) }
    ensures seat { Belongs table.now hand.new.seated }
{
    if let CellWord::Dispatch(row) = read(table, hand, site) {
        purge_dispatch(table, hand, h, site, row);
    }
}

/// Where the row that the cell dispatches through has the handle and limbo has room, tries to take it out.
fn purge_dispatch(table: &Shared, hand: &mut Hand, h: Handle, site: u16, row: u16)
    requires seat { Belongs table.now hand.old.seated }
    requires site { site < (key_of table.now).sizes.sites }
    requires row { row < (key_of table.now).sizes.rows }
    requires protected { IsProtected (view_of hand.old.seated) row }
    ensures trail { Makes hand.old.seated hand.new.seated (purging_cell h site (Dispatch row)) tt }
    ensures goes { Goes (view_of hand.old.seated) (view_of hand.new.seated) }
    ensures seat { Belongs table.now hand.new.seated }
{
    if is_due(table, hand, h, row) {
        take_from_cell(table, hand, site, row);
    }
}

/// Tries one exchange of the cell from Dispatch of the row to Lookup, and retires the row where it was won.
fn take_from_cell(table: &Shared, hand: &mut Hand, site: u16, row: u16)
    requires seat { Belongs table.now hand.old.seated }
    requires site { site < (key_of table.now).sizes.sites }
    requires row { row < (key_of table.now).sizes.rows }
    requires room { length hand.old.limbo.items ≤ 14 }
    ensures trail { Makes hand.old.seated hand.new.seated (unlinking (ToLookup site row) row) tt }
    ensures goes { Goes (view_of hand.old.seated) (view_of hand.new.seated) }
    ensures seat { Belongs table.now hand.new.seated }
{
    if to_lookup(table, hand, site, row) {
        retire(table, hand, row);
    }
}
