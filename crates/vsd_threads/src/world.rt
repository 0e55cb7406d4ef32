//! The world of the example: four types and two tokens.
ghost use Rattle.std.specs.Prelude.{◌≡◌, ◌<◌, ◌+◌, ◌*◌, ◌↔◌, IsTrue, slice_index};
ghost use Rattle.vsd_core.specs.Worlds.{targets, targets_fit};
ghost use Rattle.vsd_casts.specs.Ladders.{ladder, ladder_of_bits};

use vsd_core::Resolver;

/// What answers where no cache does. The lists of all its answers, which its contract cites, are those of the
/// runtime's own tests.
#[derive(Drop)]
pub struct World;

impl Resolver for World {
    ghost types = { λ _. 4 };

    ghost tokens = { λ _. 2 };

    ghost sel = { λ _. targets };

    ghost cmp = { λ _. ladder };

    fn select(&self, t: u16, k: u16) -> u32 {
        target(t, k)
    }

    fn compat(&self, t: u16, u: u16) -> bool {
        is_compatible(t, u)
    }

    ghost targets_fit = { targets_fit };

    ghost answers_are_bits = { ladder_of_bits };
}

/// The method that a call on type `t` through token `k` reaches: its number plus 1.
pub fn target(t: u16, k: u16) -> u32
    requires { (t < 4) × (k < 2) }
    ensures { result ≡ t + 1 + 10 * k }
{
    u32::from(t) + 1 + 10 * u32::from(k)
}

/// Whether type `t` is compatible with type `u`: each is with itself and with those before it.
pub fn is_compatible(t: u16, u: u16) -> bool
    requires { (t < 4) × (u < 4) }
    ensures { IsTrue result ↔ slice_index ladder (t * 4 + u) ≡ 1 }
{
    u <= t
}
