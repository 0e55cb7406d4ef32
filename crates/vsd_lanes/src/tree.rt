//! A lane as it is written, and what is left by the operations that were made so far.

use sqlite_items::Items;
use std::alloc::AllocError;
use vsd_ast::{Op, Var};
use vsd_grammar::Cause;

/// An operation as it is written. Tokens are named by their index, from 0.
#[derive(Clone, Copy, Debug, PartialEq, Eq, Drop)]
pub enum Written {
    /// `load`, and the name of the variable, at this index.
    Load {
        word: usize,
        at: usize,
        variable: u32,
        /// The number of the written term among the script's roots.
        root: u32,
        /// Whether that is a class which isn't abstract.
        concrete: bool,
    },
    /// `unload`, and the name of the variable, at this index.
    Unload {
        word: usize,
        at: usize,
        variable: u32,
    },
    /// `call`, the name of a site, and that of the object, at this index.
    Call {
        word: usize,
        site: u16,
        at: usize,
        object: Var,
    },
    /// `cast`, and the names of the source and of the target, each at its index.
    Cast {
        word: usize,
        at: usize,
        source: Var,
        target_at: usize,
        target: Var,
    },
}

/// A part of a lane as it is written.
#[derive(Debug, Drop)]
pub enum Item {
    /// An operation.
    Once(Written),
    /// `repeat`: its Number, and what stands in its braces.
    Repeat { times: u32, body: Items<Item> },
}

/// A variable of a lane that is live.
#[derive(Clone, Copy, Debug, PartialEq, Eq, Drop)]
pub struct Live {
    pub variable: u32,
    /// Whether its type is a class which isn't abstract.
    pub concrete: bool,
}

/// What is left by the operations of a lane that were made so far.
#[derive(Debug, Drop)]
pub struct Running {
    /// The variables that are live, at most 32.
    pub live: Items<Live>,
    /// The operations, with repeats written out.
    pub ops: Items<Op>,
}

/// Why an operation can't be made, and the index of the token that shows it.
#[derive(Clone, Copy, Debug, PartialEq, Eq, Drop)]
pub struct Refusal {
    pub at: usize,
    pub cause: Cause,
}

/// Why operations stop.
#[derive(Clone, Copy, Debug, PartialEq, Eq, Drop)]
pub enum Halt {
    /// Want of memory.
    Memory,
    /// An operation can't be made.
    Refused(Refusal),
}

impl From<AllocError> for Halt {
    ghost use Rattle.std.specs.Prelude.{◌≡◌};
    ghost use Rattle.vsd_lanes.specs.declared.tree.Halt.TheVariants.{Memory};

    ghost from_gives = { λ _ halt. halt ≡ Memory };

    fn from(_: AllocError) -> Halt {
        Halt::Memory
    }
}
