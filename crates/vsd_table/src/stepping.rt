//! Steps of any kind on a word, over which the seat stays the same caller's.
ghost use Rattle.std.specs.Prelude.{◌<◌};
ghost use Rattle.vsd_table.specs.Seating.{key_of, view_of, Belongs};
ghost use Rattle.vsd_table.specs.StepKind.{Learns};
ghost use Rattle.vsd_table.specs.Stepping.{words_of, StaysSeat, MayLoad, MayStore, MaySwap, MayExchange, MayAdd};

use crate::seated::Seated;
use crate::shared::Shared;
use crate::step_kind::{Made, StepKind};

impl Seated {
    #[inline]
    pub(crate) fn load<K: StepKind>(&mut self, table: &Shared, index: usize) -> u64
        requires seat { Belongs table.now self.old }
        requires within { index < words_of table.now }
        requires may { MayLoad K.kind table.now self.old index }
        ensures stays { StaysSeat self.old self.new }
        ensures seat { Belongs table.now self.new }
        ensures learns { Learns K.kind (key_of table.now).sizes index 0 0 (view_of self.old) result (view_of self.new) }
    {
        table.table.shared.load::<Made<K>>(&mut self.seat, index)
    }

    #[inline]
    pub(crate) fn store<K: StepKind>(&mut self, table: &Shared, index: usize, word: u64)
        requires seat { Belongs table.now self.old }
        requires within { index < words_of table.now }
        requires may { MayStore K.kind table.now self.old index word }
        ensures stays { StaysSeat self.old self.new }
        ensures seat { Belongs table.now self.new }
        ensures learns { Learns K.kind (key_of table.now).sizes index word 0 (view_of self.old) word (view_of self.new) }
    {
        table
            .table
            .shared
            .store::<Made<K>>(&mut self.seat, index, word);
    }

    #[inline]
    pub(crate) fn swap<K: StepKind>(&mut self, table: &Shared, index: usize, word: u64) -> u64
        requires seat { Belongs table.now self.old }
        requires within { index < words_of table.now }
        requires may { MaySwap K.kind table.now self.old index word }
        ensures stays { StaysSeat self.old self.new }
        ensures seat { Belongs table.now self.new }
        ensures learns { Learns K.kind (key_of table.now).sizes index word 0 (view_of self.old) result (view_of self.new) }
    {
        table
            .table
            .shared
            .swap::<Made<K>>(&mut self.seat, index, word)
    }

    /// The word becomes `new` where it was `old`. Answers the word as it was.
    #[inline]
    pub(crate) fn exchange<K: StepKind>(
        &mut self,
        table: &Shared,
        index: usize,
        old: u64,
        new: u64,
    ) -> u64
        requires seat { Belongs table.now self.old }
        requires within { index < words_of table.now }
        requires may { MayExchange K.kind table.now self.old index old new }
        ensures stays { StaysSeat self.old self.new }
        ensures seat { Belongs table.now self.new }
        ensures learns { Learns K.kind (key_of table.now).sizes index old new (view_of self.old) result (view_of self.new) }
    {
        table
            .table
            .shared
            .compare_exchange::<Made<K>>(&mut self.seat, index, old, new)
    }

    /// Adds to the word, round the end. Answers the word as it was.
    #[inline]
    pub(crate) fn add<K: StepKind>(&mut self, table: &Shared, index: usize, more: u64) -> u64
        requires seat { Belongs table.now self.old }
        requires within { index < words_of table.now }
        requires may { MayAdd K.kind table.now self.old index more }
        ensures stays { StaysSeat self.old self.new }
        ensures seat { Belongs table.now self.new }
        ensures learns { Learns K.kind (key_of table.now).sizes index more 0 (view_of self.old) result (view_of self.new) }
    {
        table
            .table
            .shared
            .fetch_add::<Made<K>>(&mut self.seat, index, more)
    }
}
