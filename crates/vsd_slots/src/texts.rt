//! Texts of methods.
ghost use Rattle.std.specs.Prelude.{◌≡◌, ◌<◌, ◌≤◌, IfOk, length};
ghost use Rattle.vsd_check.specs.Checked.{decls_of};
ghost use Rattle.vsd_types.specs.Types.{type_at};
ghost use Rattle.vsd_slots.specs.Refusals.{method_count};
ghost use Rattle.vsd_slots.specs.Texts.{mark, method_text, name_text, namesakes};
ghost use Rattle.vsd_terms.specs.Text.{text_of};

use std::alloc::{AllocError, Global};
use vsd_ast::Method;
use vsd_check::Checked;
use vsd_methods::declaration_at;
use vsd_terms::print;
use vsd_types::Closed;

// How many of the methods before a place have this name.
fn namesakes(methods: &[Method], name: &[u8], place: u16) -> u16
    requires { place ≤ length methods.now }
    ensures count { result ≡ namesakes methods.now name.now place }
    ensures few { result ≤ place }
{
    let mut found = 0;
    for k in 0..place {
        if methods[k as usize].name.as_slice() == name {
            found += 1;
        }
    }
    found
}

// Nothing after the first method of a name, `#k` after the k-th.
fn mark(alloc: Global, earlier: u16) -> Result<Vec<u8>, AllocError>
    requires { earlier < 256 }
    ensures { IfOk result (λ text. text.items ≡ mark earlier) }
{
    if earlier == 0 {
        return Ok(Vec::new(alloc));
    }
    Ok(format!(in alloc; "#{}", earlier + 1)?.into_bytes())
}

/// The text of a closed type, which is told by its number. The error is want of memory.
pub fn type_text(
    alloc: Global,
    checked: &Checked,
    closed: &Closed,
    t: u16,
) -> Result<Vec<u8>, AllocError>
    requires together { closed.now.decls ≡ decls_of checked.now }
    requires listed { t < length closed.now.types }
    ensures { IfOk result (λ text. text.items ≡ text_of closed.now.decls.names (type_at closed.now.types t)) }
{
    let _count = closed.count();
    print(alloc, closed.term(t), &checked.decls().names)
}

/// The name of a method of a closed type, and `#k` where it is the k-th virtual method of that name in its declaration and k
/// is at least 2. The type is told by its number and the method by its place, both from 0. The error is want of memory.
pub fn name_text(
    alloc: Global,
    checked: &Checked,
    closed: &Closed,
    t: u16,
    method: u16,
) -> Result<Vec<u8>, AllocError>
    requires together { closed.now.decls ≡ decls_of checked.now }
    requires listed { t < length closed.now.types }
    requires method { method < method_count closed.now.decls.list (type_at closed.now.types t) }
    ensures { IfOk result (λ text. text.items ≡ name_text closed.now.decls.list (type_at closed.now.types t) method) }
{
    let Some(declared) = declaration_at(checked, closed, t) else {
        unreachable!();
    };
    let methods = declared.decl.methods.as_slice();
    let name = methods[method as usize].name.as_slice();
    let mut text = Vec::from_slice(alloc, name)?;
    text.extend_from_slice(mark(alloc, namesakes(methods, name, method))?.as_slice())?;
    Ok(text)
}

/// The text of a method of a closed type: the type, `::`, the method's name, and `#k` where it is the k-th virtual method
/// of that name in its declaration and k is at least 2. The type is told by its number and the method by its place, both
/// from 0. The error is want of memory.
pub fn method_text(
    alloc: Global,
    checked: &Checked,
    closed: &Closed,
    t: u16,
    method: u16,
) -> Result<Vec<u8>, AllocError>
    requires together { closed.now.decls ≡ decls_of checked.now }
    requires listed { t < length closed.now.types }
    requires method { method < method_count closed.now.decls.list (type_at closed.now.types t) }
    ensures { IfOk result (λ text. text.items ≡ method_text closed.now.decls.names closed.now.decls.list (type_at closed.now.types t) method) }
{
    let mut text = type_text(alloc, checked, closed, t)?;
    text.extend_from_slice(b"::")?;
    text.extend_from_slice(name_text(alloc, checked, closed, t, method)?.as_slice())?;
    Ok(text)
}
