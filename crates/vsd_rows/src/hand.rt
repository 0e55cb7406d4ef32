//! A caller's hand.
ghost use Rattle.std.specs.Prelude.{◌≡◌, ◌≤◌, ◌<◌, ℕ, map};
ghost use mathlib.Core.Option.{some};
ghost use lib.ListN.{get_elem?};
ghost use Rattle.vsd_rule.specs.Layout.{handle_rows};
ghost use Rattle.vsd_table.specs.Seating.{view_of};
ghost use Rattle.vsd_rows.specs.Retired.{retired_row, AreInTable};

use crate::limbo::Limbo;
use arrayvec::ArrayVec;
use vsd_table::{Seated, Shared};

/// A caller's seat with what the caller itself has to remember from step to step. Both are what
/// the seat's view has.
#[derive(Drop)]
pub struct Hand {
    pub seated: Seated,
    /// The row at which the next search for a free row begins.
    pub cursor: u16,
    /// The rows in limbo, the oldest first.
    pub limbo: ArrayVec<Limbo, 16>,
    pub ghost same_cursor: { cursor ≡ (view_of seated).rows.cursor },
    pub ghost same_limbo: { map retired_row limbo.items ≡ (view_of seated).rows.limbo },
    pub ghost cursor_in: { 0 < (view_of seated).key.sizes.rows → cursor < (view_of seated).key.sizes.rows },
    pub ghost limbo_in: { AreInTable (view_of seated).key limbo.items },
    pub ghost few_rows: { (view_of seated).key.sizes.rows ≤ 1024 },
    pub ghost few_handles: { handle_rows (view_of seated).key.sizes ≤ 1280 },
}

impl Hand {
    ghost use Rattle.std.specs.Prelude.{[]};
    ghost use Rattle.vsd_rule.specs.Facts.{HasBoundNone};
    ghost use Rattle.vsd_table.specs.Seating.{IsNew, Belongs};

    /// The hand of a seat that has made no step. Its search for free rows begins at the caller's
    /// share of them, and its limbo is empty.
    pub fn new(table: &Shared, seated: Seated) -> Hand
        requires { IsNew table.now seated }
        ensures seat { result.seated ≡ seated }
        ensures limbo { result.limbo.items ≡ [] }

        // What the first calls of a caller ask.
        ensures belongs { Belongs table.now result.seated }
        ensures bound_none { HasBoundNone (view_of result.seated) }
    {
        let sizes = table.sizes();
        let caller = u32::from(seated.caller());
        let cursor = caller * u32::from(sizes.rows) / u32::from(sizes.callers);
        Hand {
            seated,
            cursor: cursor as u16,
            limbo: ArrayVec::new(),
        }
    }
}
