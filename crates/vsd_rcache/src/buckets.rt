//! Single loads and swaps of buckets.
ghost use Rattle.std.specs.Prelude.{◌≡◌, ◌<◌, ℕ, IfSome};
ghost use Rattle.vsd_words.specs.Handle.{HandleInRange};
ghost use Rattle.vsd_words.specs.Hash.{bucket_of};
ghost use Rattle.vsd_rule.specs.RowSteps.{after_bucket, after_put_bucket, after_empty_bucket};
ghost use Rattle.vsd_rule.specs.RowFacts.{IsFilled, Leaves};
ghost use Rattle.vsd_table.specs.Seating.{key_of, view_of, Belongs, Becomes};
ghost use Rattle.vsd_trails.specs.RowTrails.{looking, emptying};
ghost use Rattle.vsd_trails.specs.CallTrails.{putting};
ghost use Rattle.vsd_rows.specs.Makes.{Makes};
ghost use Rattle.vsd_rows.specs.Hands.{IsProtected};

use vsd_rows::Hand;
use vsd_table::Shared;
use vsd_words::{Handle, bucket_of};

/// The row that a bucket names, below the sizes' `rows`, by one load. The caller protects it from here on
/// until it unpins.
/// `None` comes exactly where the bucket was loaded as 0.
pub fn look(table: &Shared, hand: &mut Hand, bucket: u32) -> Option<u16>
    requires seat { Belongs table.now hand.old.seated }
    requires bucket { bucket < (key_of table.now).sizes.buckets }
    requires pinned { 0 < (view_of hand.old.seated).rows.pinned }
    ensures trail { Makes hand.old.seated hand.new.seated (looking bucket) result }
    ensures step { Becomes hand.old.seated hand.new.seated (after_bucket (view_of hand.old.seated) bucket result) }
    ensures protects { IfSome result (IsProtected (view_of hand.new.seated)) }
    ensures in_table { IfSome result (λ row. row < (key_of table.now).sizes.rows) }
    ensures seat { Belongs table.now hand.new.seated }
{
    hand.seated.bucket(table, bucket)
}

/// Swaps a row that is filled with this pair into the pair's bucket. Answers the row that came out, below
/// the sizes' `rows`, which the caller keeps. `None` comes exactly where the swap found an empty bucket.
pub fn put(table: &Shared, hand: &mut Hand, row: u16, token: u16, h: Handle) -> Option<u16>
    requires seat { Belongs table.now hand.old.seated }
    requires row { row < (key_of table.now).sizes.rows }
    requires handle { HandleInRange h }
    requires filled { (target : ℕ) × IsFilled (view_of hand.old.seated) row h token target }
    ensures trail { Makes hand.old.seated hand.new.seated (putting (key_of table.now) row token h) result }
    ensures step { Becomes hand.old.seated hand.new.seated
        (after_put_bucket (view_of hand.old.seated) (bucket_of token h (key_of table.now).sizes.buckets) row result) }
    ensures leaves { IfSome result (Leaves (view_of hand.new.seated)) }
    ensures in_table { IfSome result (λ out. out < (key_of table.now).sizes.rows) }
    ensures seat { Belongs table.now hand.new.seated }
{
    let bucket = bucket_for(table, token, h);
    hand.seated.put_bucket(table, bucket, row)
}

/// The bucket in which a pair of token and handle is looked for.
pub(crate) fn bucket_for(table: &Shared, token: u16, h: Handle) -> u32
    requires { HandleInRange h }
    ensures formula { result ≡ bucket_of token h (key_of table.now).sizes.buckets }
    ensures in_range { result < (key_of table.now).sizes.buckets }
{
    bucket_of(token, h, u32::from(table.sizes().buckets))
}

/// Swaps a bucket empty. Answers the row that came out, below the sizes' `rows`, which the caller keeps.
/// `None` comes exactly where the swap found the bucket empty.
pub fn purge(table: &Shared, hand: &mut Hand, bucket: u32) -> Option<u16>
    requires seat { Belongs table.now hand.old.seated }
    requires bucket { bucket < (key_of table.now).sizes.buckets }
    ensures trail { Makes hand.old.seated hand.new.seated (emptying bucket) result }
    ensures step { Becomes hand.old.seated hand.new.seated (after_empty_bucket (view_of hand.old.seated) bucket result) }
    ensures leaves { IfSome result (Leaves (view_of hand.new.seated)) }
    ensures in_table { IfSome result (λ out. out < (key_of table.now).sizes.rows) }
    ensures seat { Belongs table.now hand.new.seated }
{
    hand.seated.empty_bucket(table, bucket)
}
