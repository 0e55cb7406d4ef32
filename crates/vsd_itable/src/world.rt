//! What a runtime is told of types, apart from the declarations.
ghost use Rattle.std.specs.Prelude.{◌≡◌, ◌*◌, length};

use crate::targets::Targets;
use vsd_compat::Variances;
use vsd_rule::Resolver;

/// The answers of tables without what they were worked out from: for each type and token what is called, and for each two
/// types whether they are compatible. It names no declaration and no term, so threads can share it.
#[derive(Drop)]
pub struct World {
    /// How many types there are.
    pub(crate) types: u16,
    /// How many dispatch tokens there are.
    pub(crate) tokens: usize,
    pub(crate) targets: Targets,
    pub(crate) variances: Variances,
    pub(crate) ghost long: { length targets.entries.items ≡ types * tokens },
    pub(crate) ghost wide: { variances.matrix.count ≡ types },
}

impl Resolver for World {
    ghost use Rattle.vsd_compat.specs.Matrices.{bits_of};
    ghost use Rattle.vsd_itable.specs.BitList.{bit-below};
    ghost use Rattle.vsd_itable.specs.Worlds.{cmp_in, sel_in};

    ghost types = { λ w. w.types };

    ghost tokens = { λ w. w.tokens };

    ghost sel = { sel_in };

    ghost cmp = { cmp_in };

    fn select(&self, t: u16, k: u16) -> u32 {
        self.targets.entries[usize::from(t) * self.tokens + usize::from(k)]
    }

    fn compat(&self, t: u16, u: u16) -> bool {
        self.variances.bit(t, u)
    }

    ghost targets_fit = { λ w i. w.targets.fits i };

    ghost answers_are_bits = { λ w i. bit-below w.types (bits_of w.variances.matrix) i };
}

fn is_shared<R: Resolver + Sync>(_world: &R) {}

/// Threads may share a world: it meets the bound that a runtime which several of them use asks of its resolver.
pub fn world_is_shared(world: &World) {
    is_shared(world);
}
