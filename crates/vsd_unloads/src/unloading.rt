//! An unload: pin, store the handle word, purge every cell and every bucket, unpin and sweep.
ghost use Rattle.std.specs.Prelude.{◌≡◌, ◌≢◌, ◌+◌, ◌*◌, ◌↔◌, false};
ghost use Rattle.vsd_words.specs.declared.handle.Handle.{Handle};
ghost use Rattle.vsd_rule.specs.Handles.{own_word};
ghost use Rattle.vsd_table.specs.Seating.{key_of, view_of, Belongs};
ghost use Rattle.vsd_trails.specs.UnloadTrails.{unloading};
ghost use Rattle.vsd_trails.specs.Operations.{unloaded};
ghost use Rattle.vsd_rows.specs.Makes.{Makes};
ghost use Rattle.vsd_rows.specs.Logged.{LogsOne};
ghost use Rattle.vsd_handles.specs.Owned.{AreWordsOf};
ghost use Rattle.vsd_handles.specs.OwnRows.{IsOwned, own_row_word};
ghost use Rattle.vsd_unloads.specs.Unloads.{StoresFirst, PurgesAll, SweepsOldest, IsUnloaded, LetsGo};

use crate::buckets::purge_buckets;
use crate::cells::purge_cells;
use vsd_handles::{Owned, unbind};
use vsd_rows::{Hand, pin, sweep, unpin};
use vsd_table::{Doing, Shared};
use vsd_words::Handle;

/// Unloads the type of a handle that the caller owns. The handle's row keeps its generation and type until
/// it is bound again, and is not live. Then every cell and every bucket that still names a row of the handle
/// is given back, as far as limbo has room and no other caller is first.
///
/// Another caller that found the handle live before, or its row in a bucket, may install it once more
/// afterwards. Such a row answers for the type that this handle named.
pub fn unload(table: &Shared, hand: &mut Hand, owned: &mut Owned, h: Handle)
    requires seat { Belongs table.now hand.old.seated }
    requires unpinned { (view_of hand.old.seated).rows.pinned ≡ 0 }
    requires words { AreWordsOf owned.old hand.old }
    requires owned { IsOwned (view_of hand.old.seated) h }
    ensures trail { Makes hand.old.seated hand.new.seated (unloading (key_of table.now) h) tt }
    ensures logged { LogsOne (key_of table.now) hand.old.seated hand.new.seated (unloaded h)
        (5 + (key_of table.now).sizes.callers + 5 * ((key_of table.now).sizes.sites + (key_of table.now).sizes.buckets)) }
    ensures first { StoresFirst h hand.old.seated hand.new.seated }
    ensures purges { PurgesAll (key_of table.now) h hand.old.seated hand.new.seated }
    ensures sweeps { SweepsOldest (key_of table.now) hand.old.seated hand.new.seated }

    // The handle is the caller's no more, and shows to whoever loads its word that it is unloaded.
    ensures handles { LetsGo (view_of hand.old.seated) (view_of hand.new.seated) h }
    ensures word { own_row_word (view_of hand.new.seated) h.row
        ≡ own_word h.generation (own_row_word (view_of hand.old.seated) h.row).number false }
    ensures unloaded { IsUnloaded (view_of hand.new.seated) h }
    ensures owned { (g : Handle) → IsOwned (view_of hand.new.seated) g ↔ (IsOwned (view_of hand.old.seated) g × (g ≢ h)) }

    ensures unpinned { (view_of hand.new.seated).rows.pinned ≡ 0 }
    ensures seat { Belongs table.now hand.new.seated }
    ensures words { AreWordsOf owned.new hand.new }
{
    pin(table, hand, Doing::Unload { handle: h });
    unbind(table, hand, owned, h);
    purge_cells(table, hand, h);
    purge_buckets(table, hand, h);
    unpin(table, hand);
    sweep(table, hand);
}
