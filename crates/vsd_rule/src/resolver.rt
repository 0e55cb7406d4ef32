//! What answers where no cache does.
ghost use Rattle.std.specs.Prelude.{◌≡◌, ℕ, ◌+◌, ◌*◌, ◌<◌, ◌^◌, ◌↔◌, List, slice_index, IsTrue};

/// What answers a call or a cast that no cache holds: the world of closed types, each with a number,
/// and of dispatch tokens.
pub trait Resolver {
    /// How many types there are.
    ghost types: { Self → ℕ };

    /// How many dispatch tokens there are.
    ghost tokens: { Self → ℕ };

    /// For each type and token, type by type, 0 where the slot is missing, else a method's number plus 1.
    ghost sel: { Self → List ℕ };

    /// For each two types, first by first, 1 where the first is compatible with the second, else 0.
    ghost cmp: { Self → List ℕ };

    /// The target of a call on type `t` through token `k`: 0 for the missing slot, n + 1 for method n.
    fn select(&self, t: u16, k: u16) -> u32
        requires { (t < types self.now) × (k < tokens self.now) }
        ensures { result ≡ slice_index (sel self.now) (t * tokens self.now + k) };

    /// Whether type `t` is compatible with type `u`.
    fn compat(&self, t: u16, u: u16) -> bool
        requires { (t < types self.now) × (u < types self.now) }
        ensures { IsTrue result ↔ slice_index (cmp self.now) (t * types self.now + u) ≡ 1 };

    ghost targets_fit: { (r : Self) (i : ℕ) → slice_index (sel r) i < 2 ^ 32 };

    ghost answers_are_bits: { (r : Self) (i : ℕ) → slice_index (cmp r) i < 2 };
}
