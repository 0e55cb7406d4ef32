//! The words of indirection cells.
ghost use Rattle.std.specs.Prelude.{◌≡◌, ◌<◌};
ghost use Rattle.vsd_words.specs.declared.cell_word.CellWord.{CellWord};
ghost use Rattle.vsd_words.specs.Packing.{Unpacks};
ghost use Rattle.vsd_words.specs.CellWord.{CellWordInRange, packed_cell, IsCellPacking};

/// What the indirection cell of a call site holds (Virtual Stub Dispatch, in the Book of the
/// Runtime). The row of `Dispatch` is below 1,024.
#[derive(Clone, Copy, PartialEq, Eq, Debug)]
pub enum CellWord {
    /// The site expects no handle: the next call looks for its target.
    Lookup,
    /// The site met too many handles, and its calls go through the resolve cache.
    Resolve,
    /// The site expects the handle of this row and goes to the row's target.
    Dispatch(u16),
}

impl CellWord {
    /// The cell as one word, below 1,026: 0, 1, or `2 + row`.
    #[inline]
    pub fn pack(self) -> u64
        requires { CellWordInRange self }
        ensures packing { result ≡ packed_cell self }
        ensures below { result < 1026 }
    {
        match self {
            CellWord::Lookup => 0,
            CellWord::Resolve => 1,
            CellWord::Dispatch(row) => 2 + u64::from(row),
        }
    }

    /// The cell that packs to the word, of which one in range does.
    #[inline]
    pub fn of_packing(word: u64) -> Self
        requires { (cell : CellWord) × IsCellPacking cell word }
        ensures { IsCellPacking result word }
    {
        match word {
            0 => CellWord::Lookup,
            1 => CellWord::Resolve,
            _ => CellWord::Dispatch((word - 2) as u16),
        }
    }

    /// The cell that packs to the word, or `None` where none in range does.
    #[inline]
    pub fn unpack(word: u64) -> Option<Self>
        ensures { Unpacks IsCellPacking word result }
    {
        match word {
            0 => Some(CellWord::Lookup),
            1 => Some(CellWord::Resolve),
            2..1026 => Some(CellWord::Dispatch((word - 2) as u16)),
            _ => None,
        }
    }
}
