//! The world above a table.
ghost use Rattle.std.specs.Prelude.{◌≡◌, ℕ, List};
ghost use Rattle.std.specs.Borrow.{ftrue};
ghost use Rattle.vsd_rule.specs.World.{WorldLists};

use std::marker::Model;

/// What the table knows of the world above it, for contracts alone: it has no bytes.
#[derive(Drop)]
pub struct World {
    /// How many types there are.
    pub ghost types: { ℕ },
    /// The token of each call site.
    pub ghost site_tokens: { List ℕ },
    /// The number of each host's type.
    pub ghost host_types: { List ℕ },
    /// The target for each type and token: 0 where the slot is missing, else a method's number plus 1.
    pub ghost sel: { List ℕ },
    /// For each two types 1 where the first is compatible with the second, else 0.
    pub ghost cmp: { List ℕ },
}

impl Model for World {
    ghost also_owns = { λ _. ftrue };
}

impl World {
    /// The world with these lists. The caller's proof picks them, by what `_from` is.
    pub fn of<T>(_from: &T) -> World
        ghost lists: { WorldLists }
        ensures { (result.types ≡ lists.types) × (result.site_tokens ≡ lists.site_tokens) × (result.host_types ≡ lists.host_types) × (result.sel ≡ lists.sel) × (result.cmp ≡ lists.cmp) }
    {
        World {}
    }
}
