//! The seats of callers.
ghost use Rattle.std.specs.Prelude.{◌≡◌, ◌<◌, ◌≤◌, ◌+◌, true};
ghost use Rattle.vsd_rule.specs.Layout.{first_row, handle_rows};
ghost use Rattle.vsd_rule.specs.Facts.{SmallEpoch};
ghost use Rattle.vsd_rule.specs.Seats.{caller_of, is_caller};
ghost use Rattle.vsd_table.specs.Consistent.{IsConsistent};

use atomic_table::Seat;
use vsd_rule::{Begun, View};

/// The seat of a caller, through which it makes its steps on the table. What the caller knows is
/// its view, which contracts alone see. All that it knows agrees.
#[derive(Drop)]
pub struct Seated {
    pub(crate) seat: Seat<(), View>,
    pub(crate) begun: Begun,
    pub(crate) caller: u16,
    pub(crate) first: u16,
    ghost is_caller: { is_caller seat.me.0.who ≡ true },
    ghost numbered: { caller ≡ caller_of seat.me.0.who },
    ghost in_range: { caller < seat.me.0.key.sizes.callers },
    ghost its_rows: { first ≡ first_row seat.me.0.key.sizes caller },
    ghost small_epoch: { SmallEpoch seat.me.0 },
    ghost consistent: { IsConsistent seat.me.0 },
}

impl Seated {
    ghost use Rattle.vsd_table.specs.Seating.{view_of};

    /// The number of the caller whose seat it is, from 0 to below the sizes' `callers`.
    pub fn caller(&self) -> u16
        ensures number { result ≡ caller_of (view_of self.now).who }
        ensures in_range { result < (view_of self.now).key.sizes.callers }
    {
        self.caller
    }

    /// The first of the caller's 64 handle rows.
    pub fn first_row(&self) -> u16
        ensures row { result ≡ first_row (view_of self.now).key.sizes (caller_of (view_of self.now).who) }
        ensures caller { is_caller (view_of self.now).who ≡ true }
        ensures within { result + 64 ≤ handle_rows (view_of self.now).key.sizes }
    {
        self.first
    }
}
