//! Tests of what no clause says.
ghost use Rattle.std.specs.Prelude.{[]};
ghost use Rattle.std.proofs.Common.{rules};

use crate::{Resolver, Sizes, layout};
use std::test::Fail;
use vsd_words::HandleWord;

/// Two types and one token, without a method and without compatibility.
struct Bare;

impl Resolver for Bare {
    ghost types = { λ _. 2 };

    ghost tokens = { λ _. 1 };

    ghost sel = { λ _. [] };

    ghost cmp = { λ _. [] };

    fn select(&self, _t: u16, _k: u16) -> u32 {
        0
    }

    fn compat(&self, _t: u16, _u: u16) -> bool {
        false
    }

    ghost targets_fit = { Prim.search rules };

    ghost answers_are_bits = { Prim.search rules };
}

/// Threads may share the value.
fn is_shared<T: Sync>(_value: &T) {}

/// The value may go to another thread.
fn is_sent<T: Send>(_value: &T) {}

#[test]
fn lays_out_a_seat_per_caller(rt: HostRuntime) -> Result<(), Fail> {
    let sizes = Sizes {
        callers: 2,
        sites: 1,
        tokens: 1,
        rows: 4,
        buckets: 4,
        hosts: 1,
        regions: 1,
        miss: 100,
    };
    assert!(rt; sizes.lawful());
    let (shared, mut seats) = layout(rt.alloc(), sizes, &[0], &[1], &Bare)?;
    assert!(rt; shared.sizes() == sizes && seats.len() == 2);
    is_shared(&shared);
    is_sent(&seats);
    let seat = &mut seats[1];
    assert!(rt; seat.caller() == 1 && seat.first_row() == 65);
    let host = seat.handle_word(&shared, 0);
    let loaded = HandleWord {
        generation: 1,
        number: 1,
        immortal: true,
        live: true,
    };
    assert!(rt; host == loaded);
    Ok(())
}
