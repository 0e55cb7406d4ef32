//! The matrix of compatibility.
ghost use Rattle.std.specs.Prelude.{◌≡◌, ℕ, ◌<◌, ◌↔◌, true, false, IfOk, IfSome, IsTrue, OnOk, Some, length, slice_get};
ghost use Rattle.vsd_types.specs.ClosedList.{IsClosedUnder};
ghost use Rattle.vsd_types.specs.Numbers.{IsDistinct};
ghost use Rattle.vsd_types.specs.Types.{object as object_type, type_at};
ghost use Rattle.vsd_compat.specs.Compatibility.{IsCompatible};
ghost use Rattle.vsd_compat.specs.Generics.{AreGenerics};
ghost use Rattle.vsd_compat.specs.Improving.{Improves};
ghost use Rattle.vsd_compat.specs.Matrices.{IsSet, bits_of};
ghost use Rattle.vsd_compat.specs.Moving.{Moves};
ghost use Rattle.vsd_compat.specs.Settling.{IsSettled, IsSound, IsStarted};

use crate::agenda::Links;
use crate::climbing::{climb_all, turn};
use crate::generics::generics_of;
use crate::matrix::Matrix;
use crate::relation::settle;
use crate::waking::hurry;
use std::alloc::{AllocError, Global};
use vsd_terms::{Builtin, Term};
use vsd_types::Closed;

// How often all rows are gone over before rows are woken one by one.
const SWEEPS: u8 = 2;

/// Which types of a closed list are compatible with which, a bit for each two.
#[derive(Debug, Drop)]
pub struct Variances {
    pub(crate) matrix: Matrix,
}

impl Variances {
    ghost use Rattle.vsd_compat.specs.Variances.{AreAlike, AreVariancesOf};

    /// Works out which types are compatible with which (ECMA-335, I.8.7): a matrix of bits is filled by the rules until
    /// they give nothing more. The error is want of memory.
    pub fn compute(alloc: Global, closed: &Closed) -> Result<Variances, AllocError>
        ensures { IfOk result (AreVariancesOf closed.now) }
    {
        let mut matrix = Matrix::new(alloc, closed.count())?;
        start(closed, &mut matrix);
        let generics = generics_of(alloc, closed)?;
        settle_all(alloc, closed, generics.as_slice(), &mut matrix)?;
        Ok(Variances { matrix })
    }

    /// Whether a value of type `t` may stand where `u` is asked for. One look-up. Takes no memory.
    pub fn compatible(&self, closed: &Closed, t: u16, u: u16) -> bool
        requires made { AreVariancesOf closed.now self.now }
        requires first { t < length closed.now.types }
        requires second { u < length closed.now.types }
        ensures { IsTrue result ↔ IsCompatible closed.now.decls.list (type_at closed.now.types t) (type_at closed.now.types u) }
    {
        self.bit(t, u)
    }

    /// The bit of two numbers, for whoever has no list at hand: over the closed list that this was made from, whether a value
    /// of type `t` may stand where `u` is asked for. One look-up. Takes no memory.
    pub fn bit(&self, t: u16, u: u16) -> bool
        requires first { t < self.now.matrix.count }
        requires second { u < self.now.matrix.count }
        ensures { IsTrue result ↔ IsSet (bits_of self.now.matrix) t u }
    {
        self.matrix.get(t, u)
    }

    /// The same bits in memory of their own. The error is want of memory.
    pub fn copy(&self, alloc: Global) -> Result<Variances, AllocError>
        ensures { IfOk result (AreAlike self.now) }
    {
        Ok(Variances {
            matrix: self.matrix.copy(alloc)?,
        })
    }
}

// Each type is compatible with itself and with `object`.
fn start(closed: &Closed, matrix: &mut Matrix)
    requires count { matrix.old.count ≡ length closed.now.types }
    requires none { (t u : ℕ) → IsSet (bits_of matrix.old) t u → ⊥ }
    ensures count { matrix.new.count ≡ length closed.now.types }
    ensures sound { IsSound closed.now (bits_of matrix.new) }
    ensures started { IsStarted closed.now (bits_of matrix.new) }
{
    let count = closed.count();
    let object = closed.number(&Term::Builtin(Builtin::Object));
    for t in 0..count {
        start_row(closed, matrix, object, t);
    }
}

fn start_row(closed: &Closed, matrix: &mut Matrix, object: Option<u16>, t: u16)
    requires count { matrix.old.count ≡ length closed.now.types }
    requires object { IfSome object (λ o. slice_get closed.now.types o ≡ Some object_type) }
    requires within { t < matrix.old.count }
    ensures count { matrix.new.count ≡ matrix.old.count }
    ensures kept { (i j : ℕ) → IsSet (bits_of matrix.old) i j → IsSet (bits_of matrix.new) i j }
    ensures own { IsSet (bits_of matrix.new) t t }
    ensures object { IfSome object (λ o. IsSet (bits_of matrix.new) t o) }
    ensures sound { IsSound closed.now (bits_of matrix.old) → IsSound closed.now (bits_of matrix.new) }
{
    matrix.set(t, t);
    if let Some(object) = object {
        matrix.set(t, object);
    }
}

// Fills every row until the rules give nothing more.
fn settle_all(
    alloc: Global,
    closed: &Closed,
    generics: &[Option<u16>],
    matrix: &mut Matrix,
) -> Result<(), AllocError>
    requires count { matrix.old.count ≡ length closed.now.types }
    requires distinct { IsDistinct closed.now.types }
    requires closed { IsClosedUnder closed.now.decls.list closed.now.types }
    requires generics { AreGenerics closed.now generics.now }
    ensures improves { Improves closed.now matrix.old matrix.new }
    ensures settled { OnOk result ((t : ℕ) → t < length closed.now.types → IsSettled closed.now (bits_of matrix.new) t) }
{
    if settle_soon(closed, generics, matrix) {
        return Ok(());
    }
    settle_late(alloc, closed, generics, matrix)
}

// Goes over the rows a few times, which is enough for most, and says whether it was. Bases and interfaces come first each
// time, so that variance, which costs most, is asked of rows that have what these give.
fn settle_soon(closed: &Closed, generics: &[Option<u16>], matrix: &mut Matrix) -> bool
    requires count { matrix.old.count ≡ length closed.now.types }
    requires distinct { IsDistinct closed.now.types }
    requires closed { IsClosedUnder closed.now.decls.list closed.now.types }
    requires generics { AreGenerics closed.now generics.now }
    ensures improves { Improves closed.now matrix.old matrix.new }
    ensures settled { result ≡ true → (t : ℕ) → t < length closed.now.types → IsSettled closed.now (bits_of matrix.new) t }
{
    for _turn in 0..SWEEPS {
        climb_all(closed, matrix);
        if !sweep(closed, generics, matrix, true) {
            return true;
        }
    }
    false
}

// Wakes rows as others change, and goes over all of them until that changes nothing.
fn settle_late(
    alloc: Global,
    closed: &Closed,
    generics: &[Option<u16>],
    matrix: &mut Matrix,
) -> Result<(), AllocError>
    requires count { matrix.old.count ≡ length closed.now.types }
    requires distinct { IsDistinct closed.now.types }
    requires closed { IsClosedUnder closed.now.decls.list closed.now.types }
    requires generics { AreGenerics closed.now generics.now }
    ensures improves { Improves closed.now matrix.old matrix.new }
    ensures settled { OnOk result ((t : ℕ) → t < length closed.now.types → IsSettled closed.now (bits_of matrix.new) t) }
{
    let links = Links::new(alloc, closed)?;
    'sweeps: loop {
        hurry(alloc, closed, generics, matrix, &links)?;
        if !sweep(closed, generics, matrix, true) {
            return Ok(());
        }
    }
}

// Fills each row once, and says whether that changes anything.
fn sweep(closed: &Closed, generics: &[Option<u16>], matrix: &mut Matrix, forward: bool) -> bool
    requires count { matrix.old.count ≡ length closed.now.types }
    requires distinct { IsDistinct closed.now.types }
    requires closed { IsClosedUnder closed.now.decls.list closed.now.types }
    requires generics { AreGenerics closed.now generics.now }
    ensures moves { Moves matrix.old matrix.new result }
    ensures sound { IsSound closed.now (bits_of matrix.old) → IsSound closed.now (bits_of matrix.new) }
    ensures settled { result ≡ false → (t : ℕ) → t < length closed.now.types → IsSettled closed.now (bits_of matrix.new) t }
{
    let count = matrix.count;
    let mut changed = false;
    for k in 0..count {
        let t = turn(count, k, forward);
        changed |= settle(closed, generics, matrix, t);
    }
    changed
}
