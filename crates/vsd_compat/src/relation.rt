//! The rules of compatibility, over the bits that are set so far.
ghost use Rattle.std.specs.Prelude.{◌≡◌, ℕ, ◌<◌, ◌↔◌, IsTrue, length, false};
ghost use Rattle.vsd_types.specs.ClosedList.{IsClosedUnder};
ghost use Rattle.vsd_types.specs.Numbers.{IsDistinct};
ghost use Rattle.vsd_types.specs.Types.{type_at};
ghost use Rattle.vsd_compat.specs.Generics.{AreGenerics};
ghost use Rattle.vsd_compat.specs.Matrices.{IsSet, bits_of};
ghost use Rattle.vsd_compat.specs.Moving.{Moves};
ghost use Rattle.vsd_compat.specs.Settling.{AreVariantIn, HasBase, HasInterfaces, HasVariant, IsSettled, IsSound, VariesIn};

use crate::generics::is_one_interface;
use crate::matrix::Matrix;
use vsd_ast::Sign;
use vsd_types::Closed;

/// Whether the bits let the arguments `a` and `b` stand at a parameter with this sign.
fn varies(closed: &Closed, matrix: &Matrix, sign: Sign, a: u16, b: u16) -> bool
    requires count { matrix.now.count ≡ length closed.now.types }
    requires first { a < matrix.now.count }
    requires second { b < matrix.now.count }
    ensures { IsTrue result ↔ VariesIn closed.now (bits_of matrix.now) sign a b }
{
    if a == b {
        return true;
    }
    let directed = match sign {
        Sign::Plus => matrix.get(a, b),
        Sign::Minus => matrix.get(b, a),
        Sign::Plain => false,
    };
    directed && closed.is_reference(a) && closed.is_reference(b)
}

/// Whether the arguments of two types of one interface differ only as the bits let them.
fn are_variant(closed: &Closed, matrix: &Matrix, t: u16, u: u16) -> bool
    requires count { matrix.now.count ≡ length closed.now.types }
    requires distinct { IsDistinct closed.now.types }
    requires first { t < matrix.now.count }
    requires second { u < matrix.now.count }
    ensures { IsTrue result ↔ AreVariantIn closed.now (bits_of matrix.now) t u }
{
    let signs = closed.signs(t);
    let xs = closed.args(t);
    let ys = closed.args(u);
    for k in 0..signs.len().min(xs.len()).min(ys.len()) {
        if !varies(closed, matrix, signs[k], xs[k], ys[k]) {
            return false;
        }
    }
    true
}

/// Sets what the base of `t` has.
pub(crate) fn absorb_base(closed: &Closed, matrix: &mut Matrix, t: u16) -> bool
    requires count { matrix.old.count ≡ length closed.now.types }
    requires distinct { IsDistinct closed.now.types }
    requires within { t < matrix.old.count }
    ensures moves { Moves matrix.old matrix.new result }
    ensures sound { IsSound closed.now (bits_of matrix.old) → IsSound closed.now (bits_of matrix.new) }
    ensures settled { result ≡ false → HasBase closed.now (bits_of matrix.new) t }
{
    match closed.base(t) {
        Some(base) => matrix.absorb(t, base),
        None => false,
    }
}

/// Sets what the interfaces that `t` names have.
pub(crate) fn absorb_interfaces(closed: &Closed, matrix: &mut Matrix, t: u16) -> bool
    requires count { matrix.old.count ≡ length closed.now.types }
    requires distinct { IsDistinct closed.now.types }
    requires within { t < matrix.old.count }
    ensures moves { Moves matrix.old matrix.new result }
    ensures sound { IsSound closed.now (bits_of matrix.old) → IsSound closed.now (bits_of matrix.new) }
    ensures settled { result ≡ false → HasInterfaces closed.now (bits_of matrix.new) t }
{
    let mut changed = false;
    for interface in closed.named(t) {
        changed |= matrix.absorb(t, *interface);
    }
    changed
}

/// Sets the bit of `t` and `u` where variance gives it.
pub(crate) fn relate(
    closed: &Closed,
    generics: &[Option<u16>],
    matrix: &mut Matrix,
    t: u16,
    u: u16,
) -> bool
    requires count { matrix.old.count ≡ length closed.now.types }
    requires distinct { IsDistinct closed.now.types }
    requires closed { IsClosedUnder closed.now.decls.list closed.now.types }
    requires first { t < matrix.old.count }
    requires second { u < matrix.old.count }
    requires generics { AreGenerics closed.now generics.now }
    ensures moves { Moves matrix.old matrix.new result }
    ensures sound { IsSound closed.now (bits_of matrix.old) → IsSound closed.now (bits_of matrix.new) }
    ensures settled { result ≡ false → HasVariant closed.now (bits_of matrix.new) t u }
{
    if !is_one_interface(generics[usize::from(t)], generics[usize::from(u)]) {
        return false;
    }
    if matrix.get(t, u) {
        return false;
    }
    if !are_variant(closed, matrix, t, u) {
        return false;
    }
    matrix.set(t, u)
}

/// Sets what variance gives `t`.
fn relate_all(closed: &Closed, generics: &[Option<u16>], matrix: &mut Matrix, t: u16) -> bool
    requires count { matrix.old.count ≡ length closed.now.types }
    requires distinct { IsDistinct closed.now.types }
    requires closed { IsClosedUnder closed.now.decls.list closed.now.types }
    requires within { t < matrix.old.count }
    requires generics { AreGenerics closed.now generics.now }
    ensures moves { Moves matrix.old matrix.new result }
    ensures sound { IsSound closed.now (bits_of matrix.old) → IsSound closed.now (bits_of matrix.new) }
    ensures settled { result ≡ false → (u : ℕ) → u < length closed.now.types → HasVariant closed.now (bits_of matrix.new) t u }
{
    if !closed.is_interface(t) {
        return false;
    }
    let mut changed = false;
    for u in 0..matrix.count {
        changed |= relate(closed, generics, matrix, t, u);
    }
    changed
}

/// Sets what the rules give the row of `t`, and says whether that changes anything.
pub(crate) fn settle(closed: &Closed, generics: &[Option<u16>], matrix: &mut Matrix, t: u16) -> bool
    requires count { matrix.old.count ≡ length closed.now.types }
    requires distinct { IsDistinct closed.now.types }
    requires closed { IsClosedUnder closed.now.decls.list closed.now.types }
    requires within { t < matrix.old.count }
    requires generics { AreGenerics closed.now generics.now }
    ensures moves { Moves matrix.old matrix.new result }
    ensures sound { IsSound closed.now (bits_of matrix.old) → IsSound closed.now (bits_of matrix.new) }
    ensures settled { result ≡ false → IsSettled closed.now (bits_of matrix.new) t }
{
    let by_base = absorb_base(closed, matrix, t);
    let by_interfaces = absorb_interfaces(closed, matrix, t);
    let by_variance = relate_all(closed, generics, matrix, t);
    by_base | by_interfaces | by_variance
}
