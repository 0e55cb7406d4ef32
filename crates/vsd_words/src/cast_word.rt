//! Cast words.
ghost use Rattle.std.specs.Prelude.{◌≡◌, ◌<◌, ◌^◌};
ghost use Rattle.vsd_words.specs.declared.cast_word.CastWord.{CastWord};
ghost use Rattle.vsd_words.specs.Packing.{Unpacks};
ghost use Rattle.vsd_words.specs.CastWord.{CastWordInRange, packed_cast, IsCastPacking};

use crate::handle::Handle;

/// The target of a cast with its answer, as a row of the cast cache keeps them: the answer in the
/// low bit, as in CoreCLR's CastCache. The target is in range.
#[derive(Clone, Copy, PartialEq, Eq, Debug)]
pub struct CastWord {
    pub target: Handle,
    pub yes: bool,
}

impl CastWord {
    /// The cast word as one word, below 2^48: `2 * target + yes`, over the packed target.
    #[tactic(auto, unfolding(crate::specs::CastWord::packed_cast))]
    #[inline]
    pub fn pack(self) -> u64
        requires { CastWordInRange self }
        ensures packing { result ≡ packed_cast self }
        ensures below { result < 2 ^ 48 }
    {
        2 * self.target.pack() + u64::from(self.yes)
    }

    /// The cast word that packs to the word, of which one in range does.
    #[inline]
    pub fn of_packing(word: u64) -> Self
        requires { (w : CastWord) × IsCastPacking w word }
        ensures { IsCastPacking result word }
    {
        CastWord {
            target: Handle::of_packing(word / 2),
            yes: word % 2 == 1,
        }
    }

    /// The cast word that packs to the word, or `None` where none in range does.
    #[inline]
    pub fn unpack(word: u64) -> Option<Self>
        ensures { Unpacks IsCastPacking word result }
    {
        if word >= 1 << 48 {
            return None;
        }
        Some(CastWord::of_packing(word))
    }
}
