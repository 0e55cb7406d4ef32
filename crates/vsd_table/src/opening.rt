//! Laying out a table with the seats of its callers.
ghost use Rattle.std.specs.Prelude.{◌≡◌, ◌<◌, ◌≤◌, ◌+◌, ◌-◌, ◌++◌, ℕ, IfOk, EachIndex, All, slice_index, length, replicate, map, suc};
ghost use mathlib.Core.Option.{some};
ghost use lib.ListN.{get_elem?};
ghost use Rattle.vsd_rule.specs.declared.view.Who.TheVariants.{Root};
ghost use Rattle.vsd_rule.specs.Sizes.{LawfulSizes};
ghost use Rattle.vsd_rule.specs.Seats.{caller_of};
ghost use Rattle.vsd_rule.specs.Lists.{LawfulKey, key_with};
ghost use Rattle.vsd_rule.specs.Moves.{root_view, after_split, split_off};
ghost use Rattle.vsd_rule.specs.Opening.{host_packing};
ghost use Rattle.vsd_table.specs.Seating.{key_of, view_of, IsNew, AreNumbered};
ghost use Rattle.vsd_table.specs.Opened.{IsOpened};
ghost use Rattle.vsd_table.specs.declared.seated.Seated.{Seated};

use crate::offsets::Offsets;
use crate::seated::Seated;
use crate::shared::{Shared, SharedRule};
use atomic_table::{Seat, Split, Table};
use std::alloc::{AllocError, Global};
use vsd_rule::{Begun, Key, Resolver, Sizes, View, World};
use vsd_words::HandleWord;

/// The root gives out the next caller's seat.
pub(crate) struct NextCaller;

impl Split<View> for NextCaller {
    ghost left = { after_split };

    ghost right = { split_off };
}

/// What a table is laid out from.
#[derive(Drop)]
struct Embedder<'a, R> {
    resolver: &'a R,
    sites: &'a [u16],
    hosts: &'a [u16],
}

/// Lays out a table of these sizes, with one seat per caller, in order of the callers' numbers.
///
/// `sites` has the token of each call site, and `hosts` the number of each host's type. The world
/// that answers calls and casts is the resolver's: tokens are below its count of tokens, and types
/// below its count of types. At opening all cells are at Lookup, all rows free, all buckets empty,
/// all counters, versions and the epoch 0, and the hosts' handles live at generation 1: until a caller
/// makes its first step, all words are 0 but for the hosts' (`opened`). The error is want of memory.
pub fn layout<R: Resolver>(
    alloc: Global,
    sizes: Sizes,
    sites: &[u16],
    hosts: &[u16],
    resolver: &R,
) -> Result<(Shared, Vec<Seated>), AllocError>
    requires sizes { LawfulSizes sizes }
    requires tokens { sizes.tokens ≡ R.tokens resolver.now }
    requires sites { length sites.now ≡ sizes.sites }
    requires hosts { length hosts.now ≡ sizes.hosts }
    requires site_tokens { EachIndex sites.now (λ i. slice_index sites.now i < sizes.tokens) }
    requires host_types { EachIndex hosts.now (λ i. slice_index hosts.now i < R.types resolver.now) }
    ensures key { IfOk result (λ made. key_of made.0 ≡ key_with sizes (R.types resolver.now) sites.now hosts.now (R.sel resolver.now) (R.cmp resolver.now)) }
    ensures count { IfOk result (λ made. length made.1.items ≡ sizes.callers) }
    ensures seats { IfOk result (λ made. All (IsNew made.0) made.1.items) }
    ensures numbers { IfOk result (λ made. AreNumbered made.1.items) }
    ensures opened { IfOk result (λ made. IsOpened made.0) }
{
    let world = World::of(&Embedder {
        resolver,
        sites,
        hosts,
    });
    lay_out(alloc, Key { sizes, world }, hosts)
}

fn lay_out(alloc: Global, key: Key, hosts: &[u16]) -> Result<(Shared, Vec<Seated>), AllocError>
    requires lawful { LawfulKey key }
    requires hosts { hosts.now ≡ key.world.host_types }
    ensures key { IfOk result (λ made. key_of made.0 ≡ key) }
    ensures count { IfOk result (λ made. length made.1.items ≡ key.sizes.callers) }
    ensures seats { IfOk result (λ made. All (IsNew made.0) made.1.items) }
    ensures numbers { IfOk result (λ made. AreNumbered made.1.items) }
{
    let sizes = key.sizes;
    let offsets = Offsets::of(sizes);
    let words = opening_words(alloc, offsets, hosts)?;
    let (table, root) = Table::of_words(alloc, &words, &key)?;
    let shared = Shared {
        table,
        sizes,
        offsets,
    };
    let seats = shared.seats(alloc, root)?;
    Ok((shared, seats))
}

/// The words at opening: the hosts' words stand among zeros.
fn opening_words(alloc: Global, offsets: Offsets, hosts: &[u16]) -> Result<Vec<u64>, AllocError>
    requires { offsets.handles + length hosts.now ≤ offsets.end }
    ensures { IfOk result (λ words. words.items ≡ replicate offsets.handles 0 ++ (map host_packing hosts.now ++ replicate (offsets.end - (offsets.handles + length hosts.now)) 0)) }
{
    let mut words = Vec::new(alloc);
    words.resize(offsets.handles, 0)?;
    for number in hosts {
        words.push(host_word(*number))?;
    }
    words.resize(offsets.end, 0)?;
    Ok(words)
}

/// The word of a host's handle row.
fn host_word(number: u16) -> u64
    ensures { result ≡ host_packing number }
{
    let word = HandleWord {
        generation: 1,
        number,
        immortal: true,
        live: true,
    };
    word.pack()
}

impl Shared {
    /// Splits the callers' seats off from the root, which makes no other step.
    fn seats(&self, alloc: Global, mut root: Seat<(), View>) -> Result<Vec<Seated>, AllocError>
        requires table { root.table_id ≡ self.now.table.shared.table_id }
        requires root { root.me.0 ≡ root_view (key_of self.now) }
        ensures count { IfOk result (λ seats. length seats.items ≡ (key_of self.now).sizes.callers) }
        ensures seats { IfOk result (λ seats. All (IsNew self.now) seats.items) }
        ensures numbers { IfOk result (λ seats. AreNumbered seats.items) }
    {
        let mut seats = Vec::with_capacity(alloc, usize::from(self.sizes.callers))?;
        for caller in 0..self.sizes.callers {
            seats.push_reserved(self.next_seat(&mut root, caller));
        }
        Ok(seats)
    }

    /// Splits the next caller's seat off from the root. This loads word 0.
    fn next_seat(&self, root: &mut Seat<(), View>, caller: u16) -> Seated
        requires table { root.old.table_id ≡ self.now.table.shared.table_id }
        requires key { root.old.me.0.key ≡ key_of self.now }
        requires root { root.old.me.0.who ≡ Root caller }
        requires caller { caller < (key_of self.now).sizes.callers }
        ensures table { root.new.table_id ≡ root.old.table_id }
        ensures key { root.new.me.0.key ≡ root.old.me.0.key }
        ensures root { root.new.me.0.who ≡ Root (suc caller) }
        ensures seat { IsNew self.now result }
        ensures number { caller_of (view_of result).who ≡ caller }
    {
        let seat = self.table.shared.split_seat::<NextCaller>(root);
        Seated {
            seat,
            begun: Begun::new(),
            caller,
            first: self.sizes.hosts + 64 * caller,
        }
    }
}
