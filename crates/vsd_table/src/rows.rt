//! The steps on rows: the claim, the stores in a row of one's own, and the loads of a row's words.
ghost use Rattle.std.specs.Prelude.{◌≡◌, ◌<◌, ◌↔◌, IsTrue};
ghost use Rattle.vsd_words.specs.Handle.{HandleInRange};
ghost use Rattle.vsd_rule.specs.RowSteps.{after_claim, after_set_handle, after_set_token, after_set_target, after_free, after_row_word};
ghost use Rattle.vsd_rule.specs.RowFacts.{IsPrivate, HasSomeEvidence, RowWordInRange, FindsAgain};
ghost use Rattle.vsd_table.specs.Seating.{key_of, view_of, Belongs, Becomes};

use crate::row_kinds::{Claim, Free, LoadRowWord, SetHandle, SetTarget, SetToken};
use crate::seated::Seated;
use crate::shared::Shared;
use vsd_rule::RowWord;
use vsd_words::Handle;

impl Seated {
    /// Tries to claim a row by one exchange of its claim word from free to claimed. Answers whether
    /// it was won, and the word found: 0 for free, 1 for claimed. A row that was won is private to the
    /// caller.
    #[inline]
    pub fn claim(&mut self, table: &Shared, row: u16) -> (bool, u64)
        requires seat { Belongs table.now self.old }
        requires row { row < (key_of table.now).sizes.rows }
        ensures won { IsTrue result.0 ↔ result.1 ≡ 0 }
        ensures in_range { result.1 < 2 }
        ensures step { Becomes self.old self.new (after_claim (view_of self.old) row result.1) }
        ensures seat { Belongs table.now self.new }
    {
        let index = table.row_word_index(row, RowWord::Claim);
        let found = self.exchange::<Claim>(table, index, 0, 1);
        (found == 0, found)
    }

    /// Stores a handle in a private row. The caller has an evidence of a call on the handle.
    #[inline]
    pub fn set_handle(&mut self, table: &Shared, row: u16, handle: Handle)
        requires seat { Belongs table.now self.old }
        requires row { row < (key_of table.now).sizes.rows }
        requires handle { HandleInRange handle }
        requires private { IsPrivate (view_of self.old) row }
        requires evidence { HasSomeEvidence (view_of self.old) handle }
        ensures step { Becomes self.old self.new (after_set_handle (view_of self.old) row handle) }
        ensures seat { Belongs table.now self.new }
    {
        let index = table.row_word_index(row, RowWord::Handle);
        self.store::<SetHandle>(table, index, handle.pack());
    }

    /// Stores a token in a private row.
    #[inline]
    pub fn set_token(&mut self, table: &Shared, row: u16, token: u16)
        requires seat { Belongs table.now self.old }
        requires row { row < (key_of table.now).sizes.rows }
        requires private { IsPrivate (view_of self.old) row }
        ensures step { Becomes self.old self.new (after_set_token (view_of self.old) row token) }
        ensures seat { Belongs table.now self.new }
    {
        let index = table.row_word_index(row, RowWord::Token);
        self.store::<SetToken>(table, index, u64::from(token));
    }

    /// Stores a target in a private row.
    #[inline]
    pub fn set_target(&mut self, table: &Shared, row: u16, target: u32)
        requires seat { Belongs table.now self.old }
        requires row { row < (key_of table.now).sizes.rows }
        requires private { IsPrivate (view_of self.old) row }
        ensures step { Becomes self.old self.new (after_set_target (view_of self.old) row target) }
        ensures seat { Belongs table.now self.new }
    {
        let index = table.row_word_index(row, RowWord::Target);
        self.store::<SetTarget>(table, index, u64::from(target));
    }

    /// Frees a private row: stores free in its claim word.
    #[inline]
    pub fn free(&mut self, table: &Shared, row: u16)
        requires seat { Belongs table.now self.old }
        requires row { row < (key_of table.now).sizes.rows }
        requires private { IsPrivate (view_of self.old) row }
        ensures step { Becomes self.old self.new (after_free (view_of self.old) row) }
        ensures seat { Belongs table.now self.new }
    {
        let index = table.row_word_index(row, RowWord::Claim);
        self.store::<Free>(table, index, 0);
    }

    /// Loads one of a row's words, and answers it as it stands: the claim word is 0 or 1, the handle's
    /// a packed handle, the token below 2^16 and the target below 2^32. The load of the claim word
    /// moves the cursor to the row after it, round the end. What is loaded of a row that the caller
    /// protects is found again by each later load, until the caller unpins: no word of it is stored
    /// meanwhile.
    #[inline]
    pub fn row_word(&mut self, table: &Shared, row: u16, which: RowWord) -> u64
        requires seat { Belongs table.now self.old }
        requires row { row < (key_of table.now).sizes.rows }
        ensures step { Becomes self.old self.new (after_row_word (view_of self.old) row which result) }
        ensures seat { Belongs table.now self.new }
        ensures in_range { RowWordInRange which result }
        ensures again { FindsAgain (view_of self.old) row which result }
    {
        let index = table.row_word_index(row, which);
        self.load::<LoadRowWord>(table, index)
    }
}
