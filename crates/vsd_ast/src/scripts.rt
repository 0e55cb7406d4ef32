//! Scripts: call sites, hosts, and lanes of operations. The language is this project's own.

use crate::Bytes;
use sqlite_items::Items;
use vsd_terms::Terms;

/// What an operation works on.
#[derive(Clone, Copy, Debug, PartialEq, Eq, Drop)]
pub enum Var {
    /// The host of this number.
    Host(u16),
    /// The variable of this number among the lane's names.
    Own(u32),
}

/// One operation of a lane.
#[derive(Clone, Copy, Debug, PartialEq, Eq, Drop)]
pub enum Op {
    /// Loads the type that is the root of this number into a variable.
    Load { variable: u32, root: u32 },
    /// Gives up what a variable holds.
    Unload { variable: u32 },
    /// Calls through a site on an object.
    Call { site: u16, object: Var },
    /// Asks whether the source's type is compatible with the target's.
    Cast { source: Var, target: Var },
}

/// A call site: its name, the interface whose method it calls, and the method's place among that interface's.
#[derive(Debug, Drop)]
pub struct Site {
    pub name: Bytes,
    /// The number of the interface's term among the script's roots.
    pub root: u32,
    pub slot: u16,
}

/// A type that is loaded from the start to the end.
#[derive(Debug, Drop)]
pub struct Host {
    pub name: Bytes,
    /// The number of its term among the script's roots.
    pub root: u32,
}

/// A lane: operations that are made one after another.
#[derive(Debug, Drop)]
pub struct Lane {
    /// The names of its variables, which operations name by their places here.
    pub names: Items<Bytes>,
    /// The operations, with repeats written out.
    pub ops: Items<Op>,
}

/// A script.
#[derive(Debug, Drop)]
pub struct Script {
    /// Each written term in the order of the text. The terms in a repeat's body stand here once.
    pub roots: Terms,
    /// At most 256.
    pub sites: Items<Site>,
    /// At most 256.
    pub hosts: Items<Host>,
    /// At most 64, with at most 200,000 operations together.
    pub lanes: Items<Lane>,
}
