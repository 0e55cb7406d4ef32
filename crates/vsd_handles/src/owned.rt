//! A caller's own handle words.
ghost use Rattle.std.specs.Prelude.{◌≡◌, ◌↔◌, IsTrue};
ghost use Rattle.vsd_table.specs.Seating.{view_of};
ghost use Rattle.vsd_handles.specs.Owned.{AreWordsOf};
ghost use Rattle.vsd_handles.specs.OwnRows.{IsOwned};

use std::marker::Model;
use vsd_rows::Hand;
use vsd_words::{Handle, HandleWord};

/// The word of a row that was never bound.
const BLANK: HandleWord = HandleWord {
    generation: 0,
    number: 0,
    immortal: false,
    live: false,
};

/// The words of the caller's own 64 handle rows, as the caller last stored them. Contracts see
/// the list of them.
#[derive(Drop)]
pub struct Owned {
    words: [HandleWord; 64],
}

impl Model for Owned {
    ghost use Rattle.std.specs.Prelude.{◌≡◌, List, length};
    ghost use Rattle.vsd_words.specs.declared.handle_word.HandleWord.{HandleWord};

    ghost Value = { List HandleWord };

    ghost view = { λ o. o.words };

    ghost invariant = { λ o. length o.words ≡ 64 };
}

impl Owned {
    ghost use Rattle.std.specs.Prelude.{◌<◌, IfSome, position, replicate, slice_index_or, slice_set};
    ghost use Rattle.vsd_rule.specs.Handles.{blank_word};
    ghost use Rattle.vsd_rule.specs.Facts.{HasBoundNone};
    ghost use Rattle.vsd_handles.specs.OwnRows.{is_spare};

    /// The words of a caller that has bound no row: all 64 are 0.
    pub fn new(hand: &Hand) -> Owned
        requires { HasBoundNone (view_of hand.now.seated) }
        ensures words { result ≡ replicate 64 blank_word }
        ensures known { AreWordsOf result hand.now }
    {
        Owned { words: [BLANK; 64] }
    }

    /// The lowest index whose row is neither live nor worn out.
    pub(crate) fn spare(&self) -> Option<usize>
        ensures first { result ≡ position is_spare self.now }
        ensures within { IfSome result (λ index. index < 64) }
    {
        self.words
            .iter()
            .position(|word| !word.live && word.generation < u32::MAX)
    }

    /// The word of the row at a index.
    pub(crate) fn word(&self, index: usize) -> HandleWord
        requires { index < 64 }
        ensures { result ≡ slice_index_or self.now index blank_word }
    {
        self.words[index]
    }

    /// Notes the word that was stored in the row at a index.
    pub(crate) fn note(&mut self, index: usize, word: HandleWord)
        requires { index < 64 }
        ensures { self.new ≡ slice_set self.old index word }
    {
        self.words[index] = word;
    }
}

/// Whether the caller owns the handle: its row is one of the caller's 64, and live at the handle's
/// generation.
pub fn owns(owned: &Owned, hand: &Hand, h: Handle) -> bool
    requires { AreWordsOf owned.now hand.now }
    ensures { IsTrue result ↔ IsOwned (view_of hand.now.seated) h }
{
    let Some(index) = h.row.checked_sub(hand.seated.first_row()) else {
        return false;
    };
    if index >= 64 {
        return false;
    }
    let word = owned.word(usize::from(index));
    word.live && word.generation == h.generation
}
