//! Two virtual methods of one name and signature.
ghost use Rattle.std.specs.Prelude.{IfOk};
ghost use Rattle.vsd_least.specs.Least.{IsLeast, AtSome};
ghost use Rattle.vsd_lawful.specs.Twice.{RepeatsMethod};
ghost use Rattle.vsd_lawful.specs.Keys.{IsKeyOf};

use std::alloc::{AllocError, Global};
use std::collections::HashSet;
use vsd_ast::Method;
use vsd_least::{earlier, shown};
use vsd_terms::Term;

// What tells the methods of one declaration apart.
#[derive(Clone, Copy, PartialEq, Eq, Hash)]
struct Key<'a> {
    name: &'a [u8],
    result: Option<&'a Term>,
    arguments: &'a [Term],
}

fn key_of<'a>(method: &'a Method) -> Key<'a>
    ensures { IsKeyOf result method.now }
{
    Key {
        name: method.name.as_slice(),
        result: method.signature.result.as_ref(),
        arguments: method.signature.arguments.as_slice(),
    }
}

/// The first line of a method whose name and signature an earlier one has.
pub fn repeated_method(alloc: Global, methods: &[Method]) -> Result<Option<u32>, AllocError>
    ensures { IfOk result (IsLeast (AtSome methods.now (RepeatsMethod methods.now))) }
{
    let mut seen = HashSet::new(alloc);
    let mut found = None;
    for method in methods {
        let new = seen.insert(key_of(method))?;
        found = earlier(found, shown(!new, method.line));
    }
    Ok(found)
}
