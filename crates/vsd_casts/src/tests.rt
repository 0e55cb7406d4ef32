//! Tests of what no clause says.
ghost use Rattle.std.specs.Prelude.{◌≡◌, ◌<◌, ◌+◌, ◌*◌, ◌↔◌, [], All, IfSome, IsTrue, slice_index};
ghost use Rattle.std.proofs.Common.{rules};
ghost use Rattle.vsd_table.specs.Seating.{key_of, IsNew, Belongs};
ghost use Rattle.vsd_casts.specs.Ladders.{ladder, ladder_of_bits};

use super::*;
use std::alloc::{AllocError, Global};
use std::test::Fail;
use vsd_ccache::{Find, Lost, Put, find, put};
use vsd_handles::type_of;
use vsd_rows::Hand;
use vsd_table::{Resolver, Seated, Shared, Sizes, layout};
use vsd_trails::Unloaded;
use vsd_words::Handle;

/// Four types, of which each is compatible with itself and with those before it, and one token.
struct Ladder;

impl Resolver for Ladder {
    ghost types = { λ _. 4 };

    ghost tokens = { λ _. 1 };

    ghost sel = { λ _. [] };

    ghost cmp = { λ _. ladder };

    fn select(&self, _t: u16, _k: u16) -> u32 {
        0
    }

    fn compat(&self, t: u16, u: u16) -> bool {
        is_below(t, u)
    }

    ghost targets_fit = { Prim.search rules };

    ghost answers_are_bits = { ladder_of_bits };
}

/// Whether the first type is compatible with the second.
fn is_below(t: u16, u: u16) -> bool
    requires { (t < 4) × (u < 4) }
    ensures { IsTrue result ↔ slice_index ladder (t * 4 + u) ≡ 1 }
{
    u <= t
}

/// A table of two regions with 12 hosts, the i-th of type `i % 4`, and the hand of its one caller.
#[derive(Drop)]
struct Opened {
    table: Shared,
    hand: Hand,
    ghost belongs: { Belongs table hand.seated },
    ghost hosts: { (key_of table).sizes.hosts ≡ 12 },
    ghost types: { (key_of table).world.types ≡ 4 },
    ghost cmp: { (key_of table).world.cmp ≡ ladder },
}

impl Opened {
    /// What a look at the pair finds.
    fn find(&mut self, source: Handle, target: Handle) -> Find
        requires source { (source.row < 12) × (source.generation ≡ 1) }
        requires target { (target.row < 12) × (target.generation ≡ 1) }
    {
        find(&self.table, &mut self.hand, source, target)
    }

    /// Puts the pair's answer into the cache, where it misses; as if all eight rows had this version, where one is given.
    fn put_missed(
        &mut self,
        source: Handle,
        target: Handle,
        version: Option<u64>,
    ) -> Result<Option<Put>, Unloaded>
        requires source { (source.row < 12) × (source.generation ≡ 1) }
        requires target { (target.row < 12) × (target.generation ≡ 1) }
    {
        let Find::Miss(mut miss) = find(&self.table, &mut self.hand, source, target) else {
            return Ok(None);
        };
        if let Some(version) = version {
            miss.versions = [version; 8];
        }
        let number = type_of(&self.table, &mut self.hand, source)?;
        let other = type_of(&self.table, &mut self.hand, target)?;
        let yes = is_below(number, other);
        let done = put(&self.table, &mut self.hand, miss, source, target, yes);
        Ok(Some(done))
    }
}

/// Opens the table, if it has a seat.
fn open(alloc: Global) -> Result<Option<Opened>, AllocError> {
    let sizes = Sizes {
        callers: 1,
        sites: 0,
        tokens: 1,
        rows: 0,
        buckets: 1,
        hosts: 12,
        regions: 2,
        miss: 100,
    };
    if !sizes.lawful() {
        return Ok(None);
    }
    let hosts = [0, 1, 2, 3, 0, 1, 2, 3, 0, 1, 2, 3];
    let (table, mut seats) = layout(alloc, sizes, &[], &hosts, &Ladder)?;
    let Some(hand) = last_hand(&table, &mut seats) else {
        return Ok(None);
    };
    Ok(Some(Opened { table, hand }))
}

/// The hand of the last caller of a table.
fn last_hand(table: &Shared, seats: &mut Vec<Seated>) -> Option<Hand>
    requires { All (IsNew table.now) seats.old.items }
    ensures { IfSome result (λ hand. Belongs table.now hand.seated) }
{
    let seated = seats.pop()?;
    Some(Hand::new(table, seated))
}

/// A host's handle.
fn host(i: u16) -> Handle
    requires { i < 12 }
    ensures row { result.row < 12 }
    ensures generation { result.generation ≡ 1 }
{
    Handle {
        row: i,
        generation: 1,
    }
}

#[test]
fn all_pairs_of_twelve_hosts_find_a_row(rt: HostRuntime) -> Result<(), Fail> {
    let mut opened = open(rt.alloc())?.ok_or("one seat")?;
    let (mut grew, mut written) = (0u64, 0u64);
    for pair in 0..144u16 {
        match opened.put_missed(host(pair / 12), host(pair % 12), None) {
            Ok(Some(Put::Grew)) => grew = grew.wrapping_add(1),
            Ok(Some(Put::Written)) => written = written.wrapping_add(1),
            _ => {}
        }
    }
    assert_eq!(rt; (grew, written), (1, 143));
    let mut hits = 0u64;
    for pair in 0..144u16 {
        let (t, u) = (pair / 12, pair % 12);
        if let Find::Hit(yes) = opened.find(host(t), host(u)) {
            assert_eq!(rt; yes, u % 4 <= t % 4);
            hits = hits.wrapping_add(1);
        }
    }
    assert!(rt; hits > 0 && hits < 144);
    Ok(())
}

#[test]
fn a_version_at_its_end_is_written_no_more(rt: HostRuntime) -> Result<(), Fail> {
    const END: u64 = 1 << 62;
    let mut opened = open(rt.alloc())?.ok_or("one seat")?;
    let (t, u) = (host(3), host(1));
    // In the first of the two regions the next one is taken into use instead.
    assert_eq!(rt; opened.put_missed(t, u, Some(END)), Ok(Some(Put::Grew)));
    assert_eq!(rt;
        opened.put_missed(t, u, Some(END)),
        Ok(Some(Put::Nothing(Lost::Busy(END))))
    );
    assert_eq!(rt;
        opened.put_missed(t, u, Some(END - 1)),
        Ok(Some(Put::Nothing(Lost::Busy(END - 1))))
    );
    // Below its end a version is tried, and here the row's is another.
    assert_eq!(rt;
        opened.put_missed(t, u, Some(END - 2)),
        Ok(Some(Put::Nothing(Lost::Claim(0))))
    );
    assert_eq!(rt; opened.put_missed(t, u, None), Ok(Some(Put::Written)));
    Ok(())
}
