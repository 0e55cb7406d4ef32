//! The starts of the README and of `docs/library.md`: a runtime with its callers, and a table with handles.
ghost use Rattle.std.specs.Prelude.{All, IfSome};
ghost use Rattle.vsd_table.specs.Seating.{view_of, IsNew, Belongs};
ghost use Rattle.vsd_rule.specs.Facts.{HasBoundNone};
ghost use Rattle.vsd_starts.specs.Worlds.{targets, targets_fit, ladder, ladder_of_bits};

use std::test::Fail;
use vsd_core::{Resolver, Runtime};
use vsd_handles::{Owned, bind, owns, type_of, unbind};
use vsd_rows::Hand;
use vsd_table::{Seated, Shared, Sizes, layout};
use vsd_words::Handle;

/// Two types and one token: a call on the first reaches method 0, on the second method 1. The second is compatible with
/// the first, and each with itself.
#[derive(Drop)]
struct TwoTypes;

impl Resolver for TwoTypes {
    ghost types = { λ _. 2 };

    ghost tokens = { λ _. 1 };

    ghost sel = { λ _. targets };

    ghost cmp = { λ _. ladder };

    fn select(&self, t: u16, _k: u16) -> u32 {
        match t {
            0 => 1,
            _ => 2,
        }
    }

    fn compat(&self, t: u16, u: u16) -> bool {
        u <= t
    }

    ghost targets_fit = { targets_fit };

    ghost answers_are_bits = { ladder_of_bits };
}

#[test]
fn a_runtime_with_its_callers(rt: HostRuntime) -> Result<(), Fail> {
    let world = TwoTypes;
    let sizes = Sizes {
        callers: 2,
        sites: 1,
        tokens: 1,
        rows: 256,
        buckets: 256,
        hosts: 1,
        regions: 6,
        miss: 100,
    };
    assert!(rt; sizes.lawful());
    let (runtime, mut callers) = Runtime::start(rt.alloc(), sizes, &[0], &[0], world)?;
    let mut who = callers.pop().ok_or("two callers")?;
    let h = runtime
        .load(&mut who, 1)
        .ok()
        .ok_or("a row of handles is free")?;
    let number = runtime
        .learn(&mut who, h)
        .ok()
        .ok_or("a handle that its caller owns names a type")?;
    let answer = runtime.call(&mut who, 0, h).ok().ok_or("and is answered")?;
    let cast = runtime
        .cast(&mut who, h, runtime.host(0))
        .ok()
        .ok_or("so is its cast to a host")?;
    assert_eq!(rt;
        h,
        Handle {
            row: 65,
            generation: 1
        }
    );
    assert_eq!(rt; number, 1);
    assert_eq!(rt; answer.target, 2);
    assert!(rt; cast.yes);
    assert!(rt; runtime.owns(&who, h));
    if runtime.owns(&who, h) {
        runtime.unload(&mut who, h);
    }
    assert!(rt; !runtime.owns(&who, h));
    Ok(())
}

const ONE_CALLER: Sizes = Sizes {
    callers: 1,
    sites: 0,
    tokens: 1,
    rows: 0,
    buckets: 1,
    hosts: 0,
    regions: 1,
    miss: 100,
};

/// The hand of the last caller of a table.
fn last_hand(table: &Shared, seats: &mut Vec<Seated>) -> Option<Hand>
    requires { All (IsNew table.now) seats.old.items }
    ensures seat { IfSome result (λ hand. Belongs table.now hand.seated) }
    ensures none_bound { IfSome result (λ hand. HasBoundNone (view_of hand.seated)) }
{
    let seated = seats.pop()?;
    Some(Hand::new(table, seated))
}

#[test]
fn a_table_with_handles(rt: HostRuntime) -> Result<(), Fail> {
    let world = TwoTypes;
    assert!(rt; ONE_CALLER.lawful());
    let (table, mut seats) = layout(rt.alloc(), ONE_CALLER, &[], &[], &world)?;
    let mut hand = last_hand(&table, &mut seats).ok_or("one caller")?;
    let mut owned = Owned::new(&hand);
    let first = Handle {
        row: 0,
        generation: 1,
    };
    assert_eq!(rt; bind(&table, &mut hand, &mut owned, 0), Ok(first));
    assert_eq!(rt; type_of(&table, &mut hand, first), Ok(0));
    assert!(rt; owns(&owned, &hand, first));
    unbind(&table, &mut hand, &mut owned, first);
    assert!(rt; !owns(&owned, &hand, first));
    Ok(())
}
