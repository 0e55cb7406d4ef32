//! Why a list of tokens can't be read.
use crate::cause::Cause;
use std::alloc::AllocError;

/// The first refusal of a reading. Tokens are named by their index, from 0; the number of tokens names the end.
#[derive(Clone, Copy, Debug, PartialEq, Eq, Drop)]
pub struct SyntaxError {
    /// The token at which the refusal stands; never after the one that decided it.
    pub at: usize,
    /// The token that decided it: no token after this one was looked at.
    pub by: usize,
    /// Why the token is refused.
    pub cause: Cause,
}

/// Why a reading stops.
#[derive(Clone, Copy, Debug, PartialEq, Eq, Drop)]
pub enum Stop {
    /// Want of memory.
    Memory,
    /// The tokens can't be read.
    Refused(SyntaxError),
}

impl From<AllocError> for Stop {
    ghost use Rattle.std.specs.Prelude.{◌≡◌};
    ghost use Rattle.vsd_grammar.specs.declared.syntax_error.Stop.TheVariants.{Memory};

    ghost from_gives = { λ _ stop. stop ≡ Memory };

    fn from(_: AllocError) -> Stop {
        Stop::Memory
    }
}
