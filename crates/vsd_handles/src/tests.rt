//! Tests of what no clause says.
ghost use Rattle.std.specs.Prelude.{[], All, IfSome};
ghost use Rattle.std.proofs.Common.{rules};
ghost use Rattle.vsd_table.specs.Seating.{view_of, IsNew, Belongs};
ghost use Rattle.vsd_rule.specs.Facts.{HasBoundNone};

use super::*;
use std::test::Fail;
use vsd_rows::Hand;
use vsd_table::{Resolver, Seated, Shared, Sizes, layout};
use vsd_words::Handle;

/// A world of one type and one token, without methods.
struct OneType;

impl Resolver for OneType {
    ghost types = { λ _. 1 };

    ghost tokens = { λ _. 1 };

    ghost sel = { λ _. [] };

    ghost cmp = { λ _. [] };

    fn select(&self, _t: u16, _k: u16) -> u32 {
        0
    }

    fn compat(&self, _t: u16, _u: u16) -> bool {
        false
    }

    ghost targets_fit = { Prim.search rules };

    ghost answers_are_bits = { Prim.search rules };
}

const ONE_CALLER: Sizes = Sizes {
    callers: 1,
    sites: 0,
    tokens: 1,
    rows: 0,
    buckets: 1,
    hosts: 0,
    regions: 1,
    miss: 100,
};

/// The value may go to another thread.
fn is_sent<T: Send>(_value: &T) {}

/// The hand of the last caller of a table.
fn last_hand(table: &Shared, seats: &mut Vec<Seated>) -> Option<Hand>
    requires { All (IsNew table.now) seats.old.items }
    ensures seat { IfSome result (λ hand. Belongs table.now hand.seated) }
    ensures none_bound { IfSome result (λ hand. HasBoundNone (view_of hand.seated)) }
{
    let seated = seats.pop()?;
    Some(Hand::new(table, seated))
}

#[test]
fn binds_each_row_and_the_lowest_again(rt: HostRuntime) -> Result<(), Fail> {
    assert!(rt; ONE_CALLER.lawful());
    let (table, mut seats) = layout(rt.alloc(), ONE_CALLER, &[], &[], &OneType)?;
    let mut hand = last_hand(&table, &mut seats).ok_or("one caller")?;
    let mut owned = Owned::new(&hand);
    is_sent(&hand);
    is_sent(&owned);
    for row in 0..64u16 {
        let bound = bind(&table, &mut hand, &mut owned, 0);
        assert_eq!(rt; bound, Ok(Handle { row, generation: 1 }));
    }
    assert_eq!(rt; bind(&table, &mut hand, &mut owned, 0), Err(HandlesFull));

    let first = Handle {
        row: 0,
        generation: 1,
    };
    assert_eq!(rt; type_of(&table, &mut hand, first), Ok(0));
    assert!(rt; owns(&owned, &hand, first));
    unbind(&table, &mut hand, &mut owned, first);
    assert!(rt; !owns(&owned, &hand, first));
    let unloaded = type_of(&table, &mut hand, first).err().ok_or("unloaded")?;
    assert_eq!(rt; unloaded.handle, first);
    assert_eq!(rt;
        (unloaded.found.generation, unloaded.found.live),
        (1, false)
    );

    let again = bind(&table, &mut hand, &mut owned, 0);
    assert_eq!(rt;
        again,
        Ok(Handle {
            row: 0,
            generation: 2
        })
    );
    Ok(())
}
