//! Filling the rows that an agenda names.
ghost use Rattle.std.specs.Prelude.{◌≡◌, ◌<◌, length};
ghost use Rattle.vsd_types.specs.ClosedList.{IsClosedUnder};
ghost use Rattle.vsd_types.specs.Numbers.{IsDistinct};
ghost use Rattle.vsd_compat.specs.Generics.{AreGenerics};
ghost use Rattle.vsd_compat.specs.Improving.{Improves};

use crate::agenda::{Agenda, Links};
use crate::climbing::climb;
use crate::matrix::Matrix;
use crate::relation::relate;
use std::alloc::{AllocError, Global};
use vsd_ast::Sign;
use vsd_types::Closed;

// How many rows are woken before every row is looked at again.
const TURNS: u32 = 65536;

/// Fills rows until none is woken any more, or many have been.
pub(crate) fn hurry(
    alloc: Global,
    closed: &Closed,
    generics: &[Option<u16>],
    matrix: &mut Matrix,
    links: &Links,
) -> Result<(), AllocError>
    requires count { matrix.old.count ≡ length closed.now.types }
    requires distinct { IsDistinct closed.now.types }
    requires closed { IsClosedUnder closed.now.decls.list closed.now.types }
    requires generics { AreGenerics closed.now generics.now }
    ensures { Improves closed.now matrix.old matrix.new }
{
    let mut agenda = Agenda::new(alloc, matrix.count)?;
    for _turn in 0..TURNS {
        let Some(t) = agenda.take() else {
            return Ok(());
        };
        wake(closed, generics, matrix, links, &mut agenda, t)?;
    }
    Ok(())
}

// Fills the rows that want the row of `t`.
fn wake(
    closed: &Closed,
    generics: &[Option<u16>],
    matrix: &mut Matrix,
    links: &Links,
    agenda: &mut Agenda,
    t: u16,
) -> Result<(), AllocError>
    requires count { matrix.old.count ≡ length closed.now.types }
    requires distinct { IsDistinct closed.now.types }
    requires closed { IsClosedUnder closed.now.decls.list closed.now.types }
    requires generics { AreGenerics closed.now generics.now }
    ensures { Improves closed.now matrix.old matrix.new }
{
    for below in links.below(t) {
        lift(closed, matrix, agenda, *below)?;
    }
    for user in links.users(t) {
        vary(closed, generics, matrix, agenda, *user)?;
    }
    Ok(())
}

// Gives the row of `t` what its base and its interfaces have.
fn lift(closed: &Closed, matrix: &mut Matrix, agenda: &mut Agenda, t: u16) -> Result<(), AllocError>
    requires count { matrix.old.count ≡ length closed.now.types }
    requires distinct { IsDistinct closed.now.types }
    ensures { Improves closed.now matrix.old matrix.new }
{
    if t >= matrix.count {
        return Ok(());
    }
    if climb(closed, matrix, t) {
        return agenda.add(t);
    }
    Ok(())
}

// Asks anew how `t` and each other type vary.
fn vary(
    closed: &Closed,
    generics: &[Option<u16>],
    matrix: &mut Matrix,
    agenda: &mut Agenda,
    t: u16,
) -> Result<(), AllocError>
    requires count { matrix.old.count ≡ length closed.now.types }
    requires distinct { IsDistinct closed.now.types }
    requires closed { IsClosedUnder closed.now.decls.list closed.now.types }
    requires generics { AreGenerics closed.now generics.now }
    ensures { Improves closed.now matrix.old matrix.new }
{
    if t >= matrix.count {
        return Ok(());
    }
    vary_by(closed, generics, matrix, agenda, t, Sign::Plus)?;
    vary_by(closed, generics, matrix, agenda, t, Sign::Minus)
}

// Asks anew what the parameters of `t` with a sign let: what `t` varies to, or for `-` what varies to `t`.
fn vary_by(
    closed: &Closed,
    generics: &[Option<u16>],
    matrix: &mut Matrix,
    agenda: &mut Agenda,
    t: u16,
    sign: Sign,
) -> Result<(), AllocError>
    requires count { matrix.old.count ≡ length closed.now.types }
    requires distinct { IsDistinct closed.now.types }
    requires closed { IsClosedUnder closed.now.decls.list closed.now.types }
    requires generics { AreGenerics closed.now generics.now }
    requires within { t < matrix.old.count }
    ensures { Improves closed.now matrix.old matrix.new }
{
    if !has_sign(closed.signs(t), sign) {
        return Ok(());
    }
    for u in 0..matrix.count {
        if sign == Sign::Minus {
            ask(closed, generics, matrix, agenda, u, t)?;
        } else {
            ask(closed, generics, matrix, agenda, t, u)?;
        }
    }
    Ok(())
}

fn has_sign(signs: &[Sign], sign: Sign) -> bool {
    for s in signs {
        if *s == sign {
            return true;
        }
    }
    false
}

fn ask(
    closed: &Closed,
    generics: &[Option<u16>],
    matrix: &mut Matrix,
    agenda: &mut Agenda,
    t: u16,
    u: u16,
) -> Result<(), AllocError>
    requires count { matrix.old.count ≡ length closed.now.types }
    requires distinct { IsDistinct closed.now.types }
    requires closed { IsClosedUnder closed.now.decls.list closed.now.types }
    requires first { t < matrix.old.count }
    requires second { u < matrix.old.count }
    requires generics { AreGenerics closed.now generics.now }
    ensures { Improves closed.now matrix.old matrix.new }
{
    if relate(closed, generics, matrix, t, u) {
        return agenda.add(t);
    }
    Ok(())
}
