//! Handles.
ghost use Rattle.std.specs.Prelude.{◌≡◌, ◌<◌, ◌^◌};
ghost use Rattle.vsd_words.specs.declared.handle.Handle.{Handle};
ghost use Rattle.vsd_words.specs.Packing.{Unpacks};
ghost use Rattle.vsd_words.specs.Handle.{HandleInRange, packed_handle, IsHandlePacking};

/// Names a type for as long as it is loaded: a row of the handle words and a generation of it.
/// A row has one type per generation, and generation 0 names nothing. The row is below 32,768.
#[derive(Clone, Copy, PartialEq, Eq, Debug)]
pub struct Handle {
    pub row: u16,
    pub generation: u32,
}

impl Handle {
    /// The handle as one word, below 2^47: `row + 32768 * generation`.
    #[tactic(auto, unfolding(crate::specs::Handle::packed_handle))]
    #[inline]
    pub fn pack(self) -> u64
        requires { HandleInRange self }
        ensures packing { result ≡ packed_handle self }
        ensures below { result < 2 ^ 47 }
    {
        u64::from(self.row) + 32768 * u64::from(self.generation)
    }

    /// The handle that packs to the word, of which one in range does.
    #[inline]
    pub fn of_packing(word: u64) -> Self
        requires { (h : Handle) × IsHandlePacking h word }
        ensures { IsHandlePacking result word }
    {
        Handle {
            row: (word % 32768) as u16,
            generation: (word / 32768) as u32,
        }
    }

    /// The handle that packs to the word, or `None` where no handle in range does.
    #[inline]
    pub fn unpack(word: u64) -> Option<Self>
        ensures { Unpacks IsHandlePacking word result }
    {
        if word >= 1 << 47 {
            return None;
        }
        Some(Handle::of_packing(word))
    }
}
