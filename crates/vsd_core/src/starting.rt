//! How a runtime is started.
ghost use Rattle.std.specs.Prelude.{◌≡◌, ◌<◌, IfOk, EachIndex, All, slice_index, length};
ghost use Rattle.vsd_rule.specs.Sizes.{LawfulSizes};
ghost use Rattle.vsd_rule.specs.Lists.{key_with};
ghost use Rattle.vsd_table.specs.Seating.{IsNew, AreNumbered};
ghost use Rattle.vsd_table.specs.Opened.{IsOpened};
ghost use Rattle.vsd_core.specs.Callers.{IsNewCaller, AreInOrder};
ghost use Rattle.vsd_core.specs.Runtimes.{table_of, fixed_in};

use crate::caller::Caller;
use crate::runtime::Runtime;
use std::alloc::{AllocError, Global};
use vsd_rule::{Resolver, Sizes};
use vsd_table::{Seated, Shared, layout};

impl<R: Resolver + Drop> Runtime<R> {
    /// Starts a runtime of these sizes, with its callers in order of their numbers from 0.
    ///
    /// `sites` has the token of each call site, below the resolver's count of tokens, and `hosts` the number
    /// of each host's type, below its count of types. At the start all cells are at Lookup, all rows free,
    /// all buckets empty, all counters, versions and the epoch 0, all logs empty, and the hosts' handles live
    /// at generation 1: until a caller makes its first step, all words are 0 but for the hosts' (`opened`).
    /// The error is want of memory.
    pub fn start(
        alloc: Global,
        sizes: Sizes,
        sites: &[u16],
        hosts: &[u16],
        resolver: R,
    ) -> Result<(Runtime<R>, Vec<Caller>), AllocError>
        requires sizes { LawfulSizes sizes }
        requires tokens { sizes.tokens ≡ R.tokens resolver }
        requires sites { length sites.now ≡ sizes.sites }
        requires hosts { length hosts.now ≡ sizes.hosts }
        requires site_tokens { EachIndex sites.now (λ i. slice_index sites.now i < sizes.tokens) }
        requires host_types { EachIndex hosts.now (λ i. slice_index hosts.now i < R.types resolver) }
        ensures fixed { IfOk result (λ made. fixed_in made.0 ≡ key_with sizes (R.types resolver) sites.now hosts.now (R.sel resolver) (R.cmp resolver)) }
        ensures resolver { IfOk result (λ made. made.0.resolver ≡ resolver) }
        ensures count { IfOk result (λ made. length made.1.items ≡ sizes.callers) }
        ensures callers { IfOk result (λ made. All (IsNewCaller (table_of made.0)) made.1.items) }
        ensures order { IfOk result (λ made. AreInOrder made.1.items) }
        ensures opened { IfOk result (λ made. IsOpened (table_of made.0)) }
    {
        let (table, seats) = layout(alloc, sizes, sites, hosts, &resolver)?;
        let callers = seated_callers(alloc, &table, seats)?;
        let mut tokens = Vec::with_capacity(alloc, sites.len())?;
        tokens.extend_from_slice(sites)?;
        let runtime = Runtime {
            table,
            resolver,
            tokens,
        };
        Ok((runtime, callers))
    }
}

/// A caller for each seat, in their order.
fn seated_callers(
    alloc: Global,
    table: &Shared,
    seats: Vec<Seated>,
) -> Result<Vec<Caller>, AllocError>
    requires seats { All (IsNew table.now) seats.items }
    requires numbers { AreNumbered seats.items }
    ensures count { IfOk result (λ callers. length callers.items ≡ length seats.items) }
    ensures callers { IfOk result (λ callers. All (IsNewCaller table.now) callers.items) }
    ensures order { IfOk result (λ callers. AreInOrder callers.items) }
{
    let mut callers = Vec::with_capacity(alloc, seats.len())?;
    for seated in seats {
        callers.push_reserved(Caller::new(table, seated));
    }
    Ok(callers)
}
