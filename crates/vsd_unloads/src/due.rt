//! Which rows an unload takes out.
ghost use Rattle.std.specs.Prelude.{◌≡◌, ◌<◌, ◌≤◌, ◌&&◌, IsTrue, length};
ghost use Rattle.vsd_table.specs.Seating.{key_of, view_of, Belongs};
ghost use Rattle.vsd_trails.specs.Words.{same_handle};
ghost use Rattle.vsd_rows.specs.Makes.{Makes};
ghost use Rattle.vsd_rows.specs.Hands.{IsProtected};
ghost use Rattle.vsd_rows.specs.Leaving.{Goes};
ghost use Rattle.vsd_unloads.specs.Parts.{checking};

use vsd_rows::{Hand, room, row_handle};
use vsd_table::Shared;
use vsd_words::Handle;

/// Whether a row that a cell or a bucket named is to be taken out: it has the handle, by one load, and limbo
/// has room.
pub(crate) fn is_due(table: &Shared, hand: &mut Hand, h: Handle, row: u16) -> bool
    requires seat { Belongs table.now hand.old.seated }
    requires row { row < (key_of table.now).sizes.rows }
    requires protected { IsProtected (view_of hand.old.seated) row }
    ensures trail { Makes hand.old.seated hand.new.seated (checking h row) result }
    ensures room { IsTrue result → length hand.new.limbo.items ≤ 14 }
    ensures goes { Goes (view_of hand.old.seated) (view_of hand.new.seated) }
    ensures seat { Belongs table.now hand.new.seated }
{
    let g = row_handle(table, hand, row);
    let has_room = room(hand);
    both(g, h, has_room)
}

/// Whether two handles are one, and there is room.
fn both(g: Handle, h: Handle, room: bool) -> bool
    ensures { result ≡ (same_handle g h && room) }
{
    g == h && room
}
