//! Where the methods of a name begin among those of a declaration.
ghost use Rattle.std.specs.Prelude.{◌≡◌, ◌<◌, ◌≤◌, None, length, slice_get, IfOk, MatchOption, OnOk, Some};
ghost use Rattle.vsd_ast.specs.declared.declarations.Decl.{Decl};
ghost use Rattle.vsd_check.specs.Checked.{decls_of};
ghost use Rattle.vsd_types.specs.Types.{declaration_of, type_at};
ghost use Rattle.vsd_methods.specs.Firsts.{Adds, AreMethodNames, AreNamesOf};

use sqlite_items::Items;
use std::alloc::{AllocError, Global};
use vsd_ast::Method;
use vsd_check::Checked;
use vsd_terms::{Names, NamesError};
use vsd_types::Closed;

// Adds a name, where it is new.
fn add_name(names: &mut Names, name: &[u8]) -> Result<(), AllocError>
    requires { length names.old < 2048 }
    ensures { OnOk result (Adds names.old names.new name.now) }
{
    if names.find(name).is_some() {
        return Ok(());
    }
    match names.number(name) {
        Ok(_) => Ok(()),
        Err(NamesError::Full) => unreachable!(),
        Err(NamesError::Memory) => Err(AllocError),
    }
}

// The names of methods.
fn names_of(alloc: Global, methods: &[Method]) -> Result<Names, AllocError>
    requires { length methods.now ≤ 256 }
    ensures { IfOk result (AreNamesOf methods.now) }
{
    let mut names = Names::new(alloc);
    for i in 0..methods.len() {
        add_name(&mut names, methods[i].name.as_slice())?;
    }
    Ok(names)
}

/// For each declaration the names of its methods, so that a search begins where a name may first stand.
pub fn method_names(alloc: Global, checked: &Checked) -> Result<Items<Names>, AllocError>
    ensures { IfOk result (AreMethodNames (decls_of checked.now).list) }
{
    let decls = checked.decls().list.as_slice();
    let mut found = Items::new(alloc);
    for place in 0..decls.len() {
        found.push(names_of(alloc, decls[place].methods.as_slice())?)?;
    }
    Ok(found)
}

/// The names of the methods of a type's declaration, which a built-in does not have.
pub(crate) fn names_at<'a>(closed: &Closed, names: &'a [Names], t: u16) -> Option<&'a Names>
    requires names { AreMethodNames closed.now.decls.list names.now }
    requires within { t < length closed.now.types }
    ensures { MatchOption result (declaration_of closed.now.decls.list (type_at closed.now.types t) ≡ None)
        (λ n. (x : Decl) → declaration_of closed.now.decls.list (type_at closed.now.types t) ≡ Some x → AreNamesOf x.methods n.now) }
{
    let place = closed.declaration(t)?;
    Some(&names[place as usize])
}
