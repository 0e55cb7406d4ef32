//! The steps on handle words.
ghost use Rattle.std.specs.Prelude.{◌≡◌, ◌<◌, ◌+◌, ◌^◌, ℕ};
ghost use Rattle.vsd_words.specs.declared.handle_word.HandleWord.{HandleWord};
ghost use Rattle.vsd_words.specs.HandleWord.{HandleWordInRange, IsHandleWordPacking};
ghost use Rattle.vsd_rule.specs.Layout.{handle_rows};
ghost use Rattle.vsd_rule.specs.Handles.{handle, owned_word, own_word};
ghost use Rattle.vsd_rule.specs.Moves.{own_index, after_load_handle, after_bind, after_unbind};
ghost use Rattle.vsd_rule.specs.Facts.{Knows, KnowsOneBinding, IsOwn, FindsHandle};
ghost use Rattle.vsd_table.specs.Seating.{key_of, view_of, Belongs, Becomes};

use crate::handle_kinds::{Bind, LoadHandle, Unbind};
use crate::seated::Seated;
use crate::shared::Shared;
use vsd_words::HandleWord;

impl Seated {
    /// Loads the word of a handle row. The caller learns the binding that it shows, where it is live.
    #[inline]
    pub fn handle_word(&mut self, table: &Shared, row: u16) -> HandleWord
        requires seat { Belongs table.now self.old }
        requires row { row < handle_rows (key_of table.now).sizes }
        ensures step { Becomes self.old self.new (after_load_handle (view_of self.old) row result) }
        ensures seat { Belongs table.now self.new }
        ensures finds { FindsHandle (view_of self.old) row result }
        ensures one_binding { KnowsOneBinding (view_of self.new).handles }
    {
        let index = table.handle_index(row);
        let found = self.load::<LoadHandle>(table, index);
        unpacked(found)
    }

    /// Stores the word of one of the caller's own rows: live, of type `number`, which is below the
    /// world's count of types, at `generation`, which is one more than before. The caller learns the
    /// binding.
    #[inline]
    pub fn bind(&mut self, table: &Shared, row: u16, generation: u32, number: u16)
        requires seat { Belongs table.now self.old }
        requires own { IsOwn (view_of self.old) row }
        requires next { (owned_word (view_of self.old).handles (own_index (view_of self.old) row)).generation + 1 ≡ generation }
        requires typed { number < (key_of table.now).world.types }
        ensures step { Becomes self.old self.new (after_bind (view_of self.old) row generation number) }
        ensures seat { Belongs table.now self.new }
        ensures fresh { (other : ℕ) → ¬ Knows (view_of self.old).handles (handle row generation) other }
        ensures one_binding { KnowsOneBinding (view_of self.new).handles }
    {
        let index = table.handle_index(row);
        let word = word_of(generation, number, true).pack();
        self.store::<Bind>(table, index, word);
    }

    /// Stores the word of one of the caller's own rows not live, at the generation and of the type's
    /// number that it has.
    #[inline]
    pub fn unbind(&mut self, table: &Shared, row: u16, generation: u32, number: u16)
        requires seat { Belongs table.now self.old }
        requires own { IsOwn (view_of self.old) row }
        requires generation { (owned_word (view_of self.old).handles (own_index (view_of self.old) row)).generation ≡ generation }
        requires number { (owned_word (view_of self.old).handles (own_index (view_of self.old) row)).number ≡ number }
        ensures step { Becomes self.old self.new (after_unbind (view_of self.old) row generation number) }
        ensures seat { Belongs table.now self.new }
        ensures one_binding { KnowsOneBinding (view_of self.new).handles }
    {
        let index = table.handle_index(row);
        let word = word_of(generation, number, false).pack();
        self.store::<Unbind>(table, index, word);
    }
}

/// The word of a row of a caller's own.
fn word_of(generation: u32, number: u16, live: bool) -> HandleWord
    ensures value { result ≡ own_word generation number live }
    ensures in_range { HandleWordInRange result }
{
    HandleWord {
        generation,
        number,
        immortal: false,
        live,
    }
}

/// The handle word that a word of the table packs.
fn unpacked(word: u64) -> HandleWord
    requires { (w : HandleWord) × IsHandleWordPacking w word }
    ensures { IsHandleWordPacking result word }
{
    HandleWord::of_packing(word)
}
