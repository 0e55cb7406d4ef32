//! What holds of every program, and of the words that it reads. Each law is a function that does nothing and ensures it.
ghost use Rattle.std.specs.Prelude.{◌≡◌, ℕ, Option};
ghost use Rattle.vsd_words.specs.declared.handle.Handle.{Handle};
ghost use Rattle.vsd_words.specs.declared.cell_word.CellWord.{CellWord};
ghost use Rattle.vsd_words.specs.declared.handle_word.HandleWord.{HandleWord};
ghost use Rattle.vsd_words.specs.declared.cast_word.CastWord.{CastWord};
ghost use Rattle.vsd_words.specs.Handle.{IsHandlePacking};
ghost use Rattle.vsd_words.specs.CellWord.{packed_cell};
ghost use Rattle.vsd_words.specs.HandleWord.{IsHandleWordPacking};
ghost use Rattle.vsd_words.specs.CastWord.{IsCastPacking};
ghost use Rattle.vsd_rule.specs.RowSteps.{unpacked_handle, packed_bucket};
ghost use Rattle.vsd_trails.specs.Words.{unpacked_cell, unpacked_handle_word, unpacked_cast, unpacked_bucket};
ghost use Rattle.vsd_trails.specs.Programs.{Program, Asked};
ghost use Rattle.vsd_trails.specs.Laws.{HasOneAnswer, EndsOnce, Joins, Splits, IsBounded, MakesOnly};

/// A program of which the laws speak, and one that may follow it by its answer.
pub trait Trail {
    ghost Value: { Type 0 };

    ghost program: { Program Value };

    ghost Next: { Type 0 };

    ghost next: { Value → Program Next };

    /// A property of the steps that the first one asks for.
    ghost Allows: { Asked → Type 0 };
}

/// A list of steps is a run to at most one answer.
pub fn has_one_answer<T: Trail>()
    ensures { HasOneAnswer T.Value T.program }
{}

/// No proper prefix of a whole run is a whole run.
pub fn ends_once<T: Trail>()
    ensures { EndsOnce T.Value T.program }
{}

/// The runs of a program and the next are the runs of the one and then of the other.
pub fn joins_and_splits<T: Trail>()
    ensures joins { Joins T.Value T.Next T.program T.next }
    ensures splits { Splits T.Value T.Next T.program T.next }
{}

/// A bound by the program is a bound of its runs.
pub fn is_bounded<T: Trail>()
    ensures { IsBounded T.Value T.program }
{}

/// A run has such steps alone as the program asks for.
pub fn makes_only<T: Trail>()
    ensures { MakesOnly T.Value T.Allows T.program }
{}

/// What is packed into a word is what is read from it.
pub fn reads_back()
    ensures handle { (word : ℕ) (h : Handle) → IsHandlePacking h word → unpacked_handle word ≡ h }
    ensures cell { (cell : CellWord) → unpacked_cell (packed_cell cell) ≡ cell }
    ensures handle_word { (word : ℕ) (w : HandleWord) → IsHandleWordPacking w word → unpacked_handle_word word ≡ w }
    ensures cast { (word : ℕ) (w : CastWord) → IsCastPacking w word → unpacked_cast word ≡ w }
    ensures bucket { (named : Option ℕ) → unpacked_bucket (packed_bucket named) ≡ named }
{}
