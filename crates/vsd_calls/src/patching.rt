//! The part of a call that counts a miss at its cell and patches the cell.
ghost use Rattle.std.specs.Prelude.{◌≡◌, ◌<◌, ◌≤◌, length};
ghost use Rattle.vsd_words.specs.declared.handle.Handle.{Handle};
ghost use Rattle.vsd_rule.specs.declared.step.Act.TheVariants.{ToResolve};
ghost use Rattle.vsd_rule.specs.Lists.{site_token};
ghost use Rattle.vsd_table.specs.Seating.{key_of, view_of, Belongs};
ghost use Rattle.vsd_trails.specs.RowTrails.{unlinking};
ghost use Rattle.vsd_trails.specs.CallTrails.{patching};
ghost use Rattle.vsd_rows.specs.Makes.{Makes};
ghost use Rattle.vsd_rows.specs.Leaving.{Goes};

use vsd_cells::{miss, to_resolve};
use vsd_rows::{Hand, retire, room};
use vsd_table::Shared;

/// Counts a miss of the token. Where the new count is at least the limit and limbo has room, tries one
/// exchange of the site's cell from Dispatch of the row to Resolve, and retires the row where it was won.
#[inline(never)]
pub(crate) fn patch(table: &Shared, hand: &mut Hand, site: u16, token: u16, row: u16)
    requires seat { Belongs table.now hand.old.seated }
    requires site { site < (key_of table.now).sizes.sites }
    requires row { row < (key_of table.now).sizes.rows }
    requires token { token ≡ site_token (key_of table.now) site }
    requires token_in { token < (key_of table.now).sizes.tokens }
    ensures trail { (h : Handle) → Makes hand.old.seated hand.new.seated (patching (key_of table.now) site h row) tt }
    ensures goes { Goes (view_of hand.old.seated) (view_of hand.new.seated) }
    ensures seat { Belongs table.now hand.new.seated }
{
    let count = miss(table, hand, token);
    let limit = table.sizes().miss;
    if count < limit {
        return;
    }
    if room(hand) {
        unlink(table, hand, site, row);
    }
}

/// Tries to take the row out of the site's cell, and retires it where that was won.
fn unlink(table: &Shared, hand: &mut Hand, site: u16, row: u16)
    requires seat { Belongs table.now hand.old.seated }
    requires site { site < (key_of table.now).sizes.sites }
    requires row { row < (key_of table.now).sizes.rows }
    requires room { length (view_of hand.old.seated).rows.limbo ≤ 14 }
    ensures trail { Makes hand.old.seated hand.new.seated (unlinking (ToResolve site row) row) tt }
    ensures goes { Goes (view_of hand.old.seated) (view_of hand.new.seated) }
    ensures seat { Belongs table.now hand.new.seated }
{
    if to_resolve(table, hand, site, row) {
        retire(table, hand, row);
    }
}
