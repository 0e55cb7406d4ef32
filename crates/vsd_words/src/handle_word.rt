//! Handle words.
ghost use Rattle.std.specs.Prelude.{◌≡◌, ◌<◌, ◌^◌};
ghost use Rattle.vsd_words.specs.declared.handle_word.HandleWord.{HandleWord};
ghost use Rattle.vsd_words.specs.Packing.{Unpacks};
ghost use Rattle.vsd_words.specs.HandleWord.{HandleWordInRange, packed_handle_word, IsHandleWordPacking};

/// What the table keeps for a row of handles. Every value is in range.
#[derive(Clone, Copy, PartialEq, Eq, Debug)]
pub struct HandleWord {
    /// How often the row was bound. At 0 the row has never named a type.
    pub generation: u32,
    /// The number of the type that the row names at this generation.
    pub number: u16,
    /// Whether the type is a host's, which is loaded from the start.
    pub immortal: bool,
    /// Whether the type is loaded.
    pub live: bool,
}

impl HandleWord {
    /// The word, below 2^50: `live + 2 * immortal + 4 * number + 262144 * generation`.
    #[tactic(auto, unfolding(crate::specs::HandleWord::packed_handle_word))]
    #[inline]
    pub fn pack(self) -> u64
        requires { HandleWordInRange self }
        ensures packing { result ≡ packed_handle_word self }
        ensures below { result < 2 ^ 50 }
    {
        u64::from(self.live)
            + 2 * u64::from(self.immortal)
            + 4 * u64::from(self.number)
            + 262144 * u64::from(self.generation)
    }

    /// The handle word that packs to the word, of which one does.
    #[inline]
    pub fn of_packing(word: u64) -> Self
        requires { (w : HandleWord) × IsHandleWordPacking w word }
        ensures { IsHandleWordPacking result word }
    {
        HandleWord {
            generation: (word / 262144) as u32,
            number: (word / 4 % 65536) as u16,
            immortal: word / 2 % 2 == 1,
            live: word % 2 == 1,
        }
    }

    /// The handle word that packs to the word, or `None` where none does.
    #[inline]
    pub fn unpack(word: u64) -> Option<Self>
        ensures { Unpacks IsHandleWordPacking word result }
    {
        if word >= 1 << 50 {
            return None;
        }
        Some(HandleWord::of_packing(word))
    }
}
