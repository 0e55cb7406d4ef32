//! The declarations from one upward.
ghost use Rattle.std.specs.Prelude.{◌≡◌, ℕ, ◌+◌, ◌<◌, ◌≤◌, All, length, slice_get, slice_index, IfOk, IfSome};
ghost use Rattle.vsd_ast.specs.Lookup.{head_of, place_of};
ghost use Rattle.vsd_ast.specs.declared.declarations.Decl.{Decl};
ghost use Rattle.vsd_lift.specs.Chain.{base_name, head_name, place_above, IsChain};
ghost use Rattle.vsd_lift.specs.Lift.{IsLadder};
ghost use Rattle.vsd_lift.specs.Settled.{IsSettled};

use crate::Hierarchy;
use std::alloc::{AllocError, Global};
use vsd_ast::Decl;
use vsd_terms::Term;

/// The numbers of the declarations by the numbers of their names, of which there are `names`. A name that no declaration
/// has gets the number of declarations. The error is want of memory.
pub fn places(alloc: Global, names: usize, decls: &[Decl]) -> Result<Vec<u16>, AllocError>
    requires few { length decls.now ≤ 1024 }
    requires named { All (λ (x : Decl). x.name < names) decls.now }
    ensures count { IfOk result (λ made. length made.items ≡ names) }
    ensures places { IfOk result (λ made.
        (name : ℕ) → name < names → slice_index made.items name ≡ place_of decls.now name) }
{
    let mut made = vec![in alloc; decls.len() as u16; names]?;
    for i in (0..decls.len()).rev() {
        made[decls[i].name as usize] = i as u16;
    }
    Ok(made)
}

// The name of a named type.
fn name_in(t: &Term) -> Option<u16>
    ensures { result ≡ head_name (head_of t.now) }
{
    match t {
        Term::Named { name, .. } => Some(*name),
        _ => None,
    }
}

// The name of a base that is no built-in.
fn name_of_base(decl: &Decl) -> Option<u16>
    ensures { result ≡ base_name decl.now.base }
{
    match &decl.base {
        Some(base) => name_in(&base.term),
        None => None,
    }
}

/// The number of the declaration that the one at `at` extends. None without `extends`, and where a built-in is extended.
pub fn extended(h: &Hierarchy<'_>, at: usize) -> Option<u16>
    requires settled { IsSettled h.now.decls.now h.now.places.now h.now.depths.now }
    requires within { at < length h.now.decls.now }
    ensures above { result ≡ place_above h.now.decls.now (slice_get h.now.decls.now at) }
    ensures within { IfSome result (λ n. n < length h.now.decls.now) }
    ensures lower { IfSome result
        (λ n. slice_index h.now.depths.now n < slice_index h.now.depths.now at) }
{
    match name_of_base(&h.decls[at]) {
        Some(name) => Some(h.places[name as usize]),
        None => None,
    }
}

/// The numbers of the declarations from `from` upward, each the one that the one before extends (ECMA-335, II.10.1.2).
/// The error is want of memory.
pub fn chain(alloc: Global, h: &Hierarchy<'_>, from: usize) -> Result<Vec<usize>, AllocError>
    requires settled { IsSettled h.now.decls.now h.now.places.now h.now.depths.now }
    requires within { from < length h.now.decls.now }
    ensures chain { IfOk result (λ made. IsChain h.now.decls.now from made.items) }
    ensures ladder { IfOk result (λ made. IsLadder h.now.decls.now made.items) }
{
    let mut made = Vec::new(alloc);
    made.push(from)?;
    let mut at = from;
    while let Some(above) = extended(h, at) {
        at = above as usize;
        made.push(at)?;
    }
    Ok(made)
}
