//! The steps on the buckets of the resolve cache.
ghost use Rattle.std.specs.Prelude.{◌≡◌, ◌<◌, ◌≤◌, IfSome};
ghost use Rattle.vsd_rule.specs.RowSteps.{packed_bucket, after_bucket, after_put_bucket, after_empty_bucket};
ghost use Rattle.vsd_rule.specs.RowFacts.{IsFilledRow};
ghost use Rattle.vsd_table.specs.Seating.{key_of, view_of, Belongs, Becomes};

use crate::bucket_kinds::{EmptyBucket, LoadBucket, PutBucket};
use crate::seated::Seated;
use crate::shared::Shared;

impl Seated {
    /// Loads a bucket: the row that it names, below the sizes' `rows`, or `None` where it is empty. A
    /// pinned caller protects that row from here on.
    #[inline]
    pub fn bucket(&mut self, table: &Shared, bucket: u32) -> Option<u16>
        requires seat { Belongs table.now self.old }
        requires bucket { bucket < (key_of table.now).sizes.buckets }
        ensures step { Becomes self.old self.new (after_bucket (view_of self.old) bucket result) }
        ensures seat { Belongs table.now self.new }
        ensures in_table { IfSome result (λ row. row < (key_of table.now).sizes.rows) }
    {
        let index = table.bucket_index(bucket);
        let found = self.load::<LoadBucket>(table, index);
        table.unpacked_bucket(found)
    }

    /// Publishes a filled row in a bucket by one swap. Answers the row that came out, which the
    /// caller keeps, or `None` where the bucket was empty.
    #[inline]
    pub fn put_bucket(&mut self, table: &Shared, bucket: u32, row: u16) -> Option<u16>
        requires seat { Belongs table.now self.old }
        requires bucket { bucket < (key_of table.now).sizes.buckets }
        requires row { row < (key_of table.now).sizes.rows }
        requires filled { IsFilledRow (view_of self.old) row }
        ensures step { Becomes self.old self.new (after_put_bucket (view_of self.old) bucket row result) }
        ensures seat { Belongs table.now self.new }
        ensures in_table { IfSome result (λ out. out < (key_of table.now).sizes.rows) }
    {
        let index = table.bucket_index(bucket);
        let found = self.swap::<PutBucket>(table, index, u64::from(row) + 1);
        table.unpacked_bucket(found)
    }

    /// Empties a bucket by one swap. Answers the row that came out, which the caller keeps, or
    /// `None` where the bucket was empty.
    #[inline]
    pub fn empty_bucket(&mut self, table: &Shared, bucket: u32) -> Option<u16>
        requires seat { Belongs table.now self.old }
        requires bucket { bucket < (key_of table.now).sizes.buckets }
        ensures step { Becomes self.old self.new (after_empty_bucket (view_of self.old) bucket result) }
        ensures seat { Belongs table.now self.new }
        ensures in_table { IfSome result (λ out. out < (key_of table.now).sizes.rows) }
    {
        let index = table.bucket_index(bucket);
        let found = self.swap::<EmptyBucket>(table, index, 0);
        table.unpacked_bucket(found)
    }
}
