//! The declaration and the arguments of a closed type.
ghost use Rattle.std.specs.Prelude.{◌≡◌, ◌<◌, length, MatchOption, None};
ghost use Rattle.vsd_ast.specs.WellFormed.{AreWellFormed};
ghost use Rattle.vsd_check.specs.Checked.{decls_of};
ghost use Rattle.vsd_types.specs.Types.{declaration_of, type_at};
ghost use Rattle.vsd_methods.specs.Arguments.{IsDeclared};

use vsd_ast::Decl;
use vsd_check::Checked;
use vsd_terms::{Term, Terms};
use vsd_types::Closed;

/// The declaration of a closed type, and the type's arguments.
#[derive(Clone, Copy)]
pub struct Declared<'a> {
    pub decl: &'a Decl,
    pub args: &'a Terms,
}

/// The declaration of a type, which a built-in does not have.
pub fn declaration_at<'a>(checked: &'a Checked, closed: &'a Closed, t: u16) -> Option<Declared<'a>>
    requires together { closed.now.decls ≡ decls_of checked.now }
    requires within { t < length closed.now.types }
    ensures { MatchOption result (declaration_of closed.now.decls.list (type_at closed.now.types t) ≡ None)
        (λ d. IsDeclared closed.now (type_at closed.now.types t) d.decl.now d.args.now) }
{
    let place = closed.declaration(t)?;
    let _count = closed.count();
    let Term::Named { args, .. } = closed.term(t) else {
        return None;
    };
    Some(Declared {
        decl: &checked.decls().list.as_slice()[place as usize],
        args,
    })
}
