//! Methods that a site may name.
ghost use Rattle.std.specs.Prelude.{◌≡◌};
ghost use Rattle.vsd_script.specs.Methods as spec;

use vsd_ast::Method;
use vsd_lanes::{Types, numbered};
use vsd_terms::Term;

/// The place of the method of this name that has so many of the same name up to itself.
#[tactic(auto, unfolding(crate::specs::Methods::nth_from))]
fn nth(methods: &[Method], name: &[u8], count: u32) -> Option<usize>
    ensures { result ≡ spec.nth_from 0 count methods.now name.now }
{
    let mut left = count;
    for place in 0..methods.len() {
        if methods[place].name.as_slice() == name {
            if left == 1 {
                return Some(place);
            }
            left = left.saturating_sub(1);
        }
    }
    None
}

/// The slot of the method of this name, the first of which counts as 1, where the term is of an interface that has it.
pub(crate) fn slot_of(types: &Types<'_>, term: &Term, name: &[u8], count: u32) -> Option<u16>
    ensures { result ≡ spec.slot_of types.now.decls.now.list term.now name.now count }
{
    match term {
        Term::Named {
            name: number,
            args: _,
        } => match types.declared(*number) {
            Some(decl) => {
                if decl.is_interface {
                    numbered(nth(decl.methods.as_slice(), name, count))
                } else {
                    None
                }
            }
            None => None,
        },
        Term::Param(_) => None,
        Term::Builtin(_) => None,
    }
}
