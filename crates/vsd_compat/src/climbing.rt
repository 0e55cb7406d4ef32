//! Filling rows by bases and named interfaces alone, which is cheap beside variance.
ghost use Rattle.std.specs.Prelude.{◌≡◌, ◌<◌, length};
ghost use Rattle.vsd_types.specs.Numbers.{IsDistinct};
ghost use Rattle.vsd_compat.specs.Improving.{Improves};
ghost use Rattle.vsd_compat.specs.Settling.{turned};

use crate::matrix::Matrix;
use crate::relation::{absorb_base, absorb_interfaces};
use vsd_types::Closed;

// How often all rows are gone over, at most. Two are enough where bases and interfaces are declared in one order.
const ROUNDS: u8 = 16;

/// Gives rows what their bases and interfaces have, over and over while that changes anything. The direction turns, since a
/// row wants those of its bases before it.
pub(crate) fn climb_all(closed: &Closed, matrix: &mut Matrix)
    requires count { matrix.old.count ≡ length closed.now.types }
    requires distinct { IsDistinct closed.now.types }
    ensures { Improves closed.now matrix.old matrix.new }
{
    for round in 0..ROUNDS {
        if !climb_each(closed, matrix, round % 2 == 0) {
            return;
        }
    }
}

// Gives each row once what its base and its interfaces have, and says whether that changes anything.
fn climb_each(closed: &Closed, matrix: &mut Matrix, forward: bool) -> bool
    requires count { matrix.old.count ≡ length closed.now.types }
    requires distinct { IsDistinct closed.now.types }
    ensures { Improves closed.now matrix.old matrix.new }
{
    let count = matrix.count;
    let mut changed = false;
    for k in 0..count {
        changed |= climb(closed, matrix, turn(count, k, forward));
    }
    changed
}

/// Gives the row of `t` what its base and its interfaces have, and says whether that changes anything.
pub(crate) fn climb(closed: &Closed, matrix: &mut Matrix, t: u16) -> bool
    requires count { matrix.old.count ≡ length closed.now.types }
    requires distinct { IsDistinct closed.now.types }
    requires within { t < matrix.old.count }
    ensures { Improves closed.now matrix.old matrix.new }
{
    let by_base = absorb_base(closed, matrix, t);
    let by_interfaces = absorb_interfaces(closed, matrix, t);
    by_base | by_interfaces
}

/// The k-th number from the front or from the back.
pub(crate) fn turn(count: u16, k: u16, forward: bool) -> u16
    requires { k < count }
    ensures turned { result ≡ turned count forward k }
    ensures within { result < count }
{
    if forward { k } else { count - 1 - k }
}
