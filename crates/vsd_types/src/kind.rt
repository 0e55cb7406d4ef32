//! What a type is, apart from the types that it leads to.
ghost use Rattle.std.specs.Prelude.{◌≡◌, length, map, Some, IsSome, IfOk};
ghost use Rattle.vsd_ast.specs.Lookup.{declared, is_value_type};
ghost use Rattle.vsd_ast.specs.WellFormed.{IsDeclaration};
ghost use Rattle.vsd_check.specs.Checked.{decls_of};
ghost use Rattle.vsd_types.specs.Entries.{IsKind};
ghost use Rattle.vsd_types.specs.Types.{IsClosedType, is_reference_builtin};

use sqlite_items::Items;
use std::alloc::{AllocError, Global};
use vsd_ast::{Decl, Param, Sign};
use vsd_check::Checked;
use vsd_terms::{Builtin, Term};

/// What a type is.
#[derive(Debug, Drop)]
pub(crate) struct Kind {
    /// The place of its declaration, where it is of one.
    pub(crate) declaration: Option<u16>,
    /// The signs of its declaration's parameters.
    pub(crate) signs: Items<Sign>,
    pub(crate) is_interface: bool,
    pub(crate) is_reference: bool,
}

/// The kind of a type.
pub(crate) fn kind_of(alloc: Global, checked: &Checked, t: &Term) -> Result<Kind, AllocError>
    requires { IsClosedType (decls_of checked.now).list t.now }
    ensures { IfOk result (IsKind (decls_of checked.now).list t.now) }
{
    match t {
        Term::Param(_) => unreachable!(),
        Term::Builtin(builtin) => Ok(Kind {
            declaration: None,
            signs: Items::new(alloc),
            is_interface: false,
            is_reference: is_reference(*builtin),
        }),
        Term::Named { name, .. } => {
            let decl = declaration(checked, *name);
            Ok(Kind {
                declaration: Some(checked.declaration(*name)),
                signs: signs(alloc, decl.params.as_slice())?,
                is_interface: decl.is_interface,
                is_reference: !is_value_type(decl),
            })
        }
    }
}

/// The declaration with this name.
pub(crate) fn declaration(checked: &Checked, name: u16) -> &Decl
    requires { IsSome (declared (decls_of checked.now).list name) }
    ensures declared { declared (decls_of checked.now).list name ≡ Some result.now }
    ensures written { IsDeclaration (length (decls_of checked.now).names) result.now }
{
    &checked.decls().list.as_slice()[usize::from(checked.declaration(name))]
}

fn signs(alloc: Global, params: &[Param]) -> Result<Items<Sign>, AllocError>
    ensures { IfOk result (λ made. made ≡ map (λ p. p.sign) params.now) }
{
    let mut made = Items::new(alloc);
    for param in params {
        made.push(param.sign)?;
    }
    Ok(made)
}

fn is_reference(builtin: Builtin) -> bool
    ensures { result ≡ is_reference_builtin builtin }
{
    matches!(
        builtin,
        Builtin::Object | Builtin::String | Builtin::ValueType
    )
}

// Whether its base is `System.ValueType`.
fn is_value_type(decl: &Decl) -> bool
    ensures { result ≡ is_value_type decl.now }
{
    match &decl.base {
        Some(base) => matches!(base.term, Term::Builtin(Builtin::ValueType)),
        None => false,
    }
}
