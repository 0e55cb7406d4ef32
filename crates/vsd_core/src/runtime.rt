//! A runtime: what all of its callers share.
ghost use Rattle.std.specs.Prelude.{◌≡◌, ◌<◌, ◌↔◌, EachIndex, IsTrue, slice_index, length};
ghost use Rattle.vsd_rule.specs.Handles.{handle};
ghost use Rattle.vsd_table.specs.Seating.{key_of};

use vsd_rule::Resolver;
use vsd_table::Shared;
use vsd_words::Handle;

/// What all callers share: the table, the resolver that answers where no cache does, and the token of
/// each call site.
#[derive(Drop)]
pub struct Runtime<R: Resolver> {
    pub(crate) table: Shared,
    pub(crate) resolver: R,
    pub(crate) tokens: Vec<u16>,
    ghost types: { (key_of table).world.types ≡ R.types resolver },
    ghost token_count: { (key_of table).sizes.tokens ≡ R.tokens resolver },
    ghost sel: { (key_of table).world.sel ≡ R.sel resolver },
    ghost cmp: { (key_of table).world.cmp ≡ R.cmp resolver },
    ghost sites: { tokens.items ≡ (key_of table).world.site_tokens },
    ghost site_count: { length tokens.items ≡ (key_of table).sizes.sites },
    ghost site_tokens: { EachIndex tokens.items (λ i. slice_index tokens.items i < (key_of table).sizes.tokens) },
}

impl<R: Resolver> Runtime<R> {
    ghost use Rattle.vsd_core.specs.Runtimes.{fixed_in, HasHandle, IsHost};

    /// The resolver that the runtime was started with.
    pub fn resolver(&self) -> &R
        ensures { result.now ≡ self.now.resolver }
    {
        &self.resolver
    }

    /// The handle of host `i`, below the sizes' `hosts`: its row is the host's number, at generation 1. It is
    /// never unloaded.
    pub fn host(&self, i: u16) -> Handle
        requires { i < (fixed_in self.now).sizes.hosts }
        ensures handle { result ≡ handle i 1 }
        ensures host { IsHost (fixed_in self.now) result }
        ensures has { HasHandle (fixed_in self.now) result }
    {
        Handle {
            row: i,
            generation: 1,
        }
    }

    /// Whether the runtime has a row for the handle, and the generation isn't 0, which names nothing.
    pub fn has(&self, h: Handle) -> bool
        ensures { IsTrue result ↔ HasHandle (fixed_in self.now) h }
    {
        let sizes = self.table.sizes();
        let rows = u32::from(sizes.hosts) + 64 * u32::from(sizes.callers);
        u32::from(h.row) < rows && h.generation > 0
    }
}
