//! The part of an unload that goes over the buckets of the resolve cache.
ghost use Rattle.std.specs.Prelude.{◌≡◌, ◌<◌, ◌≤◌, Some, length};
ghost use Rattle.vsd_table.specs.Seating.{key_of, view_of, Belongs};
ghost use Rattle.vsd_trails.specs.Programs.{bind};
ghost use Rattle.vsd_trails.specs.RowTrails.{emptying, retiring_any};
ghost use Rattle.vsd_trails.specs.UnloadTrails.{purging_bucket, purging_buckets};
ghost use Rattle.vsd_rows.specs.Makes.{Makes};
ghost use Rattle.vsd_rows.specs.Hands.{IsProtected};
ghost use Rattle.vsd_rows.specs.Leaving.{Goes};
ghost use Rattle.vsd_unloads.specs.Parts.{purging_one};

use crate::due::is_due;
use vsd_rcache::{look, purge};
use vsd_rows::{Hand, retire};
use vsd_table::Shared;
use vsd_words::Handle;

/// Purges each bucket, in order.
pub(crate) fn purge_buckets(table: &Shared, hand: &mut Hand, h: Handle)
    requires seat { Belongs table.now hand.old.seated }
    requires pinned { 0 < (view_of hand.old.seated).rows.pinned }
    ensures trail { Makes hand.old.seated hand.new.seated (purging_buckets h (key_of table.now).sizes.buckets 0) tt }
    ensures goes { Goes (view_of hand.old.seated) (view_of hand.new.seated) }
    ensures seat { Belongs table.now hand.new.seated }
{
    for bucket in 0..u32::from(table.sizes().buckets) {
        purge_bucket(table, hand, h, bucket);
    }
}

/// Loads the bucket, and purges it of the handle.
fn purge_bucket(table: &Shared, hand: &mut Hand, h: Handle, bucket: u32)
    requires seat { Belongs table.now hand.old.seated }
    requires bucket { bucket < (key_of table.now).sizes.buckets }
    requires pinned { 0 < (view_of hand.old.seated).rows.pinned }
    ensures trail { Makes hand.old.seated hand.new.seated (purging_one h bucket) tt }
    ensures goes { Goes (view_of hand.old.seated) (view_of hand.new.seated) }
    ensures seat { Belongs table.now hand.new.seated }
{
    if let Some(row) = look(table, hand, bucket) {
        purge_named(table, hand, h, bucket, row);
    }
}

/// Where the row that the bucket names has the handle and limbo has room, takes out what the bucket names.
fn purge_named(table: &Shared, hand: &mut Hand, h: Handle, bucket: u32, row: u16)
    requires seat { Belongs table.now hand.old.seated }
    requires bucket { bucket < (key_of table.now).sizes.buckets }
    requires row { row < (key_of table.now).sizes.rows }
    requires protected { IsProtected (view_of hand.old.seated) row }
    ensures trail { Makes hand.old.seated hand.new.seated (purging_bucket h bucket (Some row)) tt }
    ensures goes { Goes (view_of hand.old.seated) (view_of hand.new.seated) }
    ensures seat { Belongs table.now hand.new.seated }
{
    if is_due(table, hand, h, row) {
        take_from_bucket(table, hand, bucket);
    }
}

/// Swaps the bucket empty, and retires the row that came out, if any.
fn take_from_bucket(table: &Shared, hand: &mut Hand, bucket: u32)
    requires seat { Belongs table.now hand.old.seated }
    requires bucket { bucket < (key_of table.now).sizes.buckets }
    requires room { length hand.old.limbo.items ≤ 14 }
    ensures trail { Makes hand.old.seated hand.new.seated (bind (emptying bucket) retiring_any) tt }
    ensures goes { Goes (view_of hand.old.seated) (view_of hand.new.seated) }
    ensures seat { Belongs table.now hand.new.seated }
{
    if let Some(out) = purge(table, hand, bucket) {
        retire(table, hand, out);
    }
}
