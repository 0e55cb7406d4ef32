//! Pins: while a caller is pinned, it protects each row that it loads from a cell or a bucket.
ghost use Rattle.std.specs.Prelude.{◌≡◌, ◌<◌};
ghost use Rattle.vsd_rule.specs.Evidence.{CallsAgree};
ghost use Rattle.vsd_rule.specs.RowSteps.{after_unpin};
ghost use Rattle.vsd_table.specs.Seating.{view_of, Belongs, Becomes};
ghost use Rattle.vsd_trails.specs.RowTrails.{pinning, unpinning};
ghost use Rattle.vsd_rows.specs.Makes.{Makes};
ghost use Rattle.vsd_rows.specs.Hands.{Pins};

use crate::hand::Hand;
use vsd_table::{Doing, Shared};

/// Pins the caller at the epoch, and begins this operation: loads the epoch, and stores one more in
/// the caller's epoch word. `Doing::Nothing` is for a pin by itself.
pub fn pin(table: &Shared, hand: &mut Hand, doing: Doing)
    requires seat { Belongs table.now hand.old.seated }
    requires unpinned { (view_of hand.old.seated).rows.pinned ≡ 0 }
    ensures trail { Makes hand.old.seated hand.new.seated (pinning doing) tt }
    ensures step { Pins hand.old.seated hand.new.seated doing }
    ensures pinned { 0 < (view_of hand.new.seated).rows.pinned }
    ensures seat { Belongs table.now hand.new.seated }
{
    let epoch = hand.seated.epoch(table, doing);
    hand.seated.pin(table, epoch);
}

/// Unpins the caller: stores 0 in its epoch word. It protects no row any more. All evidence that it
/// has for answers to calls agrees with all that it knows of handles.
pub fn unpin(table: &Shared, hand: &mut Hand)
    requires seat { Belongs table.now hand.old.seated }
    requires pinned { 0 < (view_of hand.old.seated).rows.pinned }
    ensures trail { Makes hand.old.seated hand.new.seated unpinning tt }
    ensures step { Becomes hand.old.seated hand.new.seated (after_unpin (view_of hand.old.seated)) }
    ensures agree { CallsAgree (view_of hand.new.seated) }
    ensures seat { Belongs table.now hand.new.seated }
{
    hand.seated.unpin(table);
}
